// The digits of a number by their places.
ghost use Rattle.std.specs.Prelude.{◌≡◌, ℕ, ◌+◌, ◌-◌, ◌*◌, ◌/◌, ◌%◌, ◌^◌, ◌<◌, ◌≤◌, ◌++◌, length, decimal};
ghost use Rattle.hp_model.specs.Display.{has_digit, place_text, places_text};
ghost use Rattle.arrayvec.specs.ArrayString.{array_string_len};

use arrayvec::ArrayString;
use itoa::Buffer;
use jd_numbers::push_digit;

/// A number without its digits below a place, for digits of so many bits.
fn above_place(n: u64, bits: u32, place: u32) -> u64
    requires some { 1 ≤ bits }
    requires few { bits ≤ 4 }
    requires place { place ≤ 64 }
    ensures { result ≡ n / (2 ^ bits) ^ place }
{
    let shift = bits * place;
    if shift < 64 { n >> shift } else { 0 }
}

/// The lowest digit of so many bits.
fn low_digit(n: u64, bits: u32) -> u8
    requires { bits ≤ 4 }
    ensures value { result ≡ n % 2 ^ bits }
    ensures bound { result < 16 }
{
    (n & ((1 << bits) - 1)) as u8
}

/// Whether the number has a digit at a place.
fn has_digit_at(n: u64, bits: u32, filled: u32, place: u32) -> bool
    requires some { 1 ≤ bits }
    requires few { bits ≤ 4 }
    requires place { place ≤ 64 }
    ensures { result ≡ has_digit (2 ^ bits) filled n place }
{
    place == 0 || place < filled || above_place(n, bits, place) > 0
}

/// The digit at a place is added to a text, if there is one.
fn push_place(text: &mut ArrayString<32>, n: u64, bits: u32, filled: u32, place: u32)
    requires some { 1 ≤ bits }
    requires few { bits ≤ 4 }
    requires place { place ≤ 64 }
    requires room { array_string_len text.old < 32 }
    ensures text { text.new.bytes ≡ text.old.bytes ++ place_text (2 ^ bits) filled n place }
    ensures len { array_string_len text.new ≤ array_string_len text.old + 1 }
{
    if has_digit_at(n, bits, filled, place) {
        push_digit(text, low_digit(above_place(n, bits, place), bits));
    }
}

/// The digits of eight places are added to a text. Answers whether there are more to their left.
pub fn push_places(text: &mut ArrayString<32>, n: u64, bits: u32, filled: u32, first: u32) -> bool
    requires some { 1 ≤ bits }
    requires few { bits ≤ 4 }
    requires first { first ≤ 56 }
    requires room { array_string_len text.old ≤ 24 }
    ensures text { text.new.bytes ≡ text.old.bytes ++ places_text (2 ^ bits) filled n first 8 }
    ensures len { array_string_len text.new ≤ array_string_len text.old + 8 }
    ensures more { result ≡ has_digit (2 ^ bits) filled n (first + 8) }
{
    for j in 0..8 {
        push_place(text, n, bits, filled, first + (7 - j));
    }
    has_digit_at(n, bits, filled, first + 8)
}

/// The decimal digit at a place is added to a text, if there is one.
fn push_decimal_place(text: &mut ArrayString<32>, n: u64, digits: &[u8], place: usize)
    requires digits { digits.now ≡ decimal n }
    requires room { array_string_len text.old < 32 }
    ensures text { text.new.bytes ≡ text.old.bytes ++ place_text 10 0 n place }
    ensures len { array_string_len text.new ≤ array_string_len text.old + 1 }
{
    if place < digits.len() {
        text.push(digits[digits.len() - 1 - place] as char);
    }
}

/// The same as `push_places` for decimal digits.
pub fn push_decimal_places(text: &mut ArrayString<32>, n: u64, first: usize) -> bool
    requires first { first ≤ 56 }
    requires room { array_string_len text.old ≤ 24 }
    ensures text { text.new.bytes ≡ text.old.bytes ++ places_text 10 0 n first 8 }
    ensures len { array_string_len text.new ≤ array_string_len text.old + 8 }
    ensures more { result ≡ has_digit 10 0 n (first + 8) }
{
    let mut buffer = Buffer::new();
    let digits = buffer.format(n).as_bytes();
    for j in 0..8 {
        push_decimal_place(text, n, digits, first + (7 - j));
    }
    first + 8 < digits.len()
}
