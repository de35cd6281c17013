// The numbers of a start: how many bits each has, and what it is fixed at. Starts and lists of bits
// are gone through by these fields, so neither knows a part's name.
ghost use Rattle.std.specs.Prelude.{◌≡◌, ◌+◌, ◌*◌, ◌<◌, ◌≤◌, ◌^◌, true, length, drop};
ghost use Rattle.hp_model.specs.WordOperations.{bit_number};
ghost use Rattle.hp_model.specs.Words.{number_of_bits};
ghost use Rattle.jd_model.specs.Problems.{Field as FieldValue, is_fixed_below, is_in_field, are_in_fields, free_width, free_widths, number_in_field, numbers_in};

use arrayvec::ArrayVec;
use hp_words::WordSize;
use jd_start::{CONTENT_NUMBERS, bit_number};
use std::marker::Model;

/// A number of a start: how many bits it has, 1 to 64, and what it is fixed at.
#[derive(Drop)]
pub struct Field {
    width: u8,
    fixed: Option<u64>,
}

impl Model for Field {
    ghost use Rattle.std.specs.Prelude.{◌≤◌};
    ghost use Rattle.jd_model.specs.Problems.{Field as FieldValue};

    ghost Value = { FieldValue };

    ghost view = { λ f. record { width = f.width; fixed = f.fixed } };

    ghost invariant = { λ f. (1 ≤ f.width) × (f.width ≤ 64) };
}

/// The number whose bits these are, lowest first.
fn number_of_bits(bits: &[bool]) -> u64
    requires { length bits.now ≤ 64 }
    ensures value { result ≡ number_of_bits bits.now }
    ensures bound { result < 2 ^ length bits.now }
{
    let mut number = 0;
    let mut left = bits.len();
    'bits: while left > 0 {
        left -= 1;
        number = 2 * number + bit_number(bits[left]);
    }
    number
}

impl Field {
    /// A number of so many bits, and what it is fixed at.
    pub fn new(width: u8, fixed: Option<u64>) -> Field
        requires some { 1 ≤ width }
        requires few { width ≤ 64 }
        ensures { result ≡ record { width = width; fixed = fixed } }
    {
        Field { width, fixed }
    }

    /// How many of its bits are free.
    pub fn free_width(&self) -> u8
        ensures value { result ≡ free_width self.now }
        ensures within { result ≤ self.now.width }
        ensures bound { result ≤ 64 }
    {
        match self.fixed {
            None => self.width,
            Some(_) => 0,
        }
    }

    /// Whether a number is in its range and is what it is fixed at.
    pub fn contains(&self, number: u64) -> bool
        ensures { result ≡ is_in_field self.now number }
    {
        let size = WordSize { bits: self.width };
        number <= size.mask()
            && match self.fixed {
                None => true,
                Some(fixed) => number == fixed,
            }
    }

    /// The number that bits from a place on say.
    pub fn number(&self, bits: &[bool], at: usize) -> u64
        requires { at + free_width self.now ≤ length bits.now }
        ensures value { result ≡ number_in_field self.now (drop at bits.now) }
        ensures bound { is_fixed_below (2 ^ self.now.width) self.now.fixed
            ≡ true → result < 2 ^ self.now.width }
    {
        match self.fixed {
            None => number_of_bits(&bits[at..at + self.width as usize]),
            Some(fixed) => fixed,
        }
    }
}

/// How many bits are free in all.
pub fn free_widths(fields: &[Field]) -> u32
    requires { length fields.now ≤ CONTENT_NUMBERS }
    ensures value { result ≡ free_widths fields.now }
    ensures bound { result ≤ 64 * length fields.now }
{
    let mut count = 0;
    for field in fields {
        count += u32::from(field.free_width());
    }
    count
}

/// Whether each number is in its field.
pub fn are_in_fields(fields: &[Field], numbers: &[u64]) -> bool
    requires { length fields.now ≡ length numbers.now }
    ensures { result ≡ are_in_fields fields.now numbers.now }
{
    for i in 0..fields.len() {
        if !fields[i].contains(numbers[i]) {
            return false;
        }
    }
    true
}

/// The numbers that bits say, in order.
pub fn numbers_in(fields: &[Field], bits: &[bool]) -> ArrayVec<u64, CONTENT_NUMBERS>
    requires fields { length fields.now ≤ CONTENT_NUMBERS }
    requires bits { free_widths fields.now ≤ length bits.now }
    ensures { result.items ≡ numbers_in fields.now bits.now }
{
    let mut numbers = ArrayVec::new();
    let mut at = 0;
    for field in fields {
        numbers.push(field.number(bits, at));
        at += usize::from(field.free_width());
    }
    numbers
}
