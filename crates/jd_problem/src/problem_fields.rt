// The fields that a problem gives to its starts: those of the content in a list, and the one that
// all nibbles share.
ghost use Rattle.std.specs.Prelude.{◌≡◌, ◌+◌, ◌*◌, ◌≤◌, true, length, drop, replicate};
ghost use Rattle.jd_model.specs.Problems.{IsProblem, content_fields, nibble_fields, field, nibble_count, is_fixed_below, are_in_fields, free_widths, numbers_in};
ghost use Rattle.jd_start.specs.Parts.{place_of};
ghost use Rattle.jd_problem.specs.Problems.{problem_of};

use crate::fields::Field;
use crate::problem::Problem;
use jd_start::{CONTENT_NUMBERS, MOST_NIBBLES, Nibbles, Part, register_nibbles};

/// The field of a part's number.
fn field(problem: &Problem, width: u8, part: Part) -> Field
    requires some { 1 ≤ width }
    requires few { width ≤ 64 }
    ensures { result ≡ field (problem_of problem.now) width (place_of part) }
{
    Field::new(width, problem.fixed.value(part))
}

/// The fields of a content's numbers.
pub fn content_fields(problem: &Problem) -> [Field; CONTENT_NUMBERS]
    ensures { result ≡ content_fields (problem_of problem.now) }
{
    let bits = problem.size.bits;
    [
        field(problem, bits, Part::X),
        field(problem, bits, Part::Y),
        field(problem, bits, Part::Z),
        field(problem, bits, Part::T),
        field(problem, bits, Part::L),
        field(problem, 64, Part::I),
        field(problem, 1, Part::F0),
        field(problem, 1, Part::F1),
        field(problem, 1, Part::F2),
        field(problem, 1, Part::F3),
        field(problem, 1, Part::C),
        field(problem, 1, Part::G),
    ]
}

/// The field of each nibble.
pub fn nibble_field(problem: &Problem) -> Field
    ensures value { result ≡ field (problem_of problem.now) 4 12 }
    ensures fixed { is_fixed_below 16 result.fixed ≡ true }
{
    field(problem, 4, Part::M)
}

/// How many register nibbles a start has.
pub fn nibble_count(problem: &Problem) -> u16
    ensures value { result ≡ nibble_count (problem_of problem.now) }
    ensures bound { result ≤ MOST_NIBBLES }
    ensures ranges { IsProblem (problem_of problem.now) }
{
    register_nibbles(problem.memory, problem.blocks())
}

/// How many bits of the nibbles are free.
pub fn free_nibble_bits(problem: &Problem) -> u32
    ensures value { result ≡ free_widths (nibble_fields (problem_of problem.now)) }
    ensures bound { result ≤ 4 * MOST_NIBBLES }
{
    u32::from(nibble_count(problem)) * u32::from(nibble_field(problem).free_width())
}

/// Whether each nibble is in a field.
pub fn are_nibbles_in(field: &Field, nibbles: &[u8]) -> bool
    ensures { result ≡ are_in_fields (replicate (length nibbles.now) field.now) nibbles.now }
{
    for nibble in nibbles {
        if !field.contains(u64::from(*nibble)) {
            return false;
        }
    }
    true
}

/// Whether nibbles are as many as the problem's starts have, and each is in its field.
pub fn are_nibbles(problem: &Problem, nibbles: &[u8]) -> bool
    ensures { result ≡ are_in_fields (nibble_fields (problem_of problem.now)) nibbles.now }
{
    nibbles.len() == usize::from(nibble_count(problem))
        && are_nibbles_in(&nibble_field(problem), nibbles)
}

/// So many nibbles of a field that bits from a place on say.
fn read_nibbles(field: &Field, count: u16, bits: &[bool], start: usize) -> Nibbles
    requires width { field.now.width ≡ 4 }
    requires fixed { is_fixed_below 16 field.now.fixed ≡ true }
    requires count { count ≤ MOST_NIBBLES }
    requires bits { start + free_widths (replicate count field.now) ≤ length bits.now }
    ensures { result ≡ numbers_in (replicate count field.now) (drop start bits.now) }
{
    let mut nibbles = Nibbles::new();
    let mut at = start;
    for _ in 0..count {
        nibbles.push(field.number(bits, at) as u8);
        at += usize::from(field.free_width());
    }
    nibbles
}

/// The nibbles of a start that bits from a place on say.
pub fn nibbles_in(problem: &Problem, bits: &[bool], start: usize) -> Nibbles
    requires { start + free_widths (nibble_fields (problem_of problem.now)) ≤ length bits.now }
    ensures value { result ≡ numbers_in (nibble_fields (problem_of problem.now)) (drop start bits.now) }
    ensures ranges { IsProblem (problem_of problem.now) }
{
    read_nibbles(&nibble_field(problem), nibble_count(problem), bits, start)
}
