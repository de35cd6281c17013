// The lines of a start, each judged by the problem as it comes; the last one also by the
// assumptions.
ghost use Rattle.std.specs.Prelude.{◌≡◌, ◌+◌, ◌<◌, ◌≤◌, ◌∷◌, [], true, length, map, slice_index_or, Some};
ghost use Rattle.jd_text.specs.Readings.{Takes};
ghost use Rattle.jd_text.specs.Words.{words_of};
ghost use Rattle.jd_text.specs.Places.{words_at};
ghost use Rattle.jd_text.specs.Digits.{digit_value, are_digits};
ghost use Rattle.jd_model.specs.StartTexts.{line_names, no_numbers, spelled_number, spelled_flags, spelled_nibbles, spelled, filled_up, with_start_line};
ghost use Rattle.jd_problem.specs.Problems.{problem_of};
ghost use Rattle.jd_problem.specs.StartReadings.{content_given, TakesNumbers};

use crate::fields::are_in_fields;
use crate::line_words::only_word;
use crate::problem::Problem;
use crate::problem_fields::{are_nibbles_in, content_fields, nibble_count, nibble_field};
use crate::start_reading::StartReading;
use jd_model::ProblemCause;
use jd_numbers::{are_digits, digit_value, hexadecimal_number};
use jd_start::{MOST_NIBBLES, Nibbles};
use jd_text::next_word;

/// The first word of a line by its number from 0. No line follows the last one.
fn line_name(k: u8) -> &'static [u8]
    requires { k ≤ 10 }
    ensures { result.now ≡ slice_index_or line_names k [] }
{
    match k {
        0 => b"start",
        1 => b"X",
        2 => b"Y",
        3 => b"Z",
        4 => b"T",
        5 => b"L",
        6 => b"I",
        7 => b"flags",
        8 => b"M",
        9 => b"end",
        _ => b"",
    }
}

/// Takes the numbers of a line before that of the nibbles.
fn take_numbers(
    problem: &Problem,
    reading: &mut StartReading,
    numbers: &[u64],
) -> Result<(), ProblemCause>
    requires from { 1 ≤ reading.old.given }
    requires to { reading.old.given ≤ 7 }
    requires count { content_given reading.old.given + length numbers.now
        ≡ content_given (reading.old.given + 1) }
    ensures { TakesNumbers problem.now reading.old (Some numbers.now) result reading.new }
{
    let first = usize::from(reading.given()) - 1;
    let fields = content_fields(problem);
    let fields = fields.as_slice();
    if !are_in_fields(&fields[first..first + numbers.len()], numbers) {
        return Err(ProblemCause::Range);
    }
    reading.take_numbers(numbers);
    Ok(())
}

/// The value of a digit.
fn digit_number(b: u8) -> u64
    ensures { result ≡ digit_value b }
{
    u64::from(digit_value(b))
}

/// The flags from 0 to 5 that six digits from flag 5 to flag 0 are.
fn flags_of(word: &[u8]) -> Option<[u64; 6]>
    ensures { result ≡ spelled_flags (word.now ∷ []) }
{
    match word {
        [f5, f4, f3, f2, f1, f0] => {
            if are_digits(2, &[*f0, *f1, *f2, *f3, *f4, *f5]) {
                Some([
                    digit_number(*f0),
                    digit_number(*f1),
                    digit_number(*f2),
                    digit_number(*f3),
                    digit_number(*f4),
                    digit_number(*f5),
                ])
            } else {
                None
            }
        }
        _ => None,
    }
}

/// The nibbles that hexadecimal digits are.
fn nibbles_of(word: &[u8]) -> Nibbles
    requires digits { are_digits 16 word.now ≡ true }
    requires room { length word.now ≤ MOST_NIBBLES }
    ensures { result ≡ map digit_value word.now }
{
    let mut nibbles = Nibbles::new();
    for b in word {
        nibbles.push(digit_value(*b));
    }
    nibbles
}

/// Adds zeros at the end until there are so many nibbles.
fn fill_up(nibbles: &mut Nibbles, count: u16)
    requires { count ≤ MOST_NIBBLES }
    ensures { nibbles.new ≡ filled_up count nibbles.old }
{
    'zeros: while nibbles.as_slice().len() < usize::from(count) {
        nibbles.push(0);
    }
}

/// Takes the nibbles that hexadecimal digits are, and zeros for those that are left out at the end.
fn take_nibbles(
    problem: &Problem,
    reading: &mut StartReading,
    word: &[u8],
) -> Result<(), ProblemCause>
    requires line { reading.old.given ≡ 8 }
    requires digits { are_digits 16 word.now ≡ true }
    ensures { TakesNumbers problem.now reading.old (Some (map digit_value word.now))
        result reading.new }
{
    let count = nibble_count(problem);
    if word.len() > usize::from(count) {
        return Err(ProblemCause::Range);
    }
    let mut nibbles = nibbles_of(word);
    fill_up(&mut nibbles, count);
    if !are_nibbles_in(&nibble_field(problem), nibbles.as_slice()) {
        return Err(ProblemCause::Range);
    }
    reading.take_nibbles(nibbles);
    Ok(())
}

/// Takes `start`, which no word follows.
fn take_begin(
    problem: &Problem,
    reading: &mut StartReading,
    line: &[u8],
    at: usize,
) -> Result<(), ProblemCause>
    requires within { at ≤ length line.now }
    requires line { reading.old.given ≡ 0 }
    ensures { TakesNumbers problem.now reading.old (no_numbers (words_at line.now at))
        result reading.new }
{
    if next_word(line, at).is_some() {
        return Err(ProblemCause::Syntax);
    }
    reading.take_numbers(&[]);
    Ok(())
}

/// Takes `end`, which no word follows. The start must meet the assumptions.
fn take_end(
    problem: &Problem,
    reading: &mut StartReading,
    line: &[u8],
    at: usize,
) -> Result<(), ProblemCause>
    requires within { at ≤ length line.now }
    requires line { reading.old.given ≡ 9 }
    ensures { TakesNumbers problem.now reading.old (no_numbers (words_at line.now at))
        result reading.new }
{
    if next_word(line, at).is_some() {
        return Err(ProblemCause::Syntax);
    }
    if !reading.meets(&problem.assumed) {
        return Err(ProblemCause::Range);
    }
    reading.take_numbers(&[]);
    Ok(())
}

/// Takes the line of a number of the stack, LAST X or the index register.
fn take_number(
    problem: &Problem,
    reading: &mut StartReading,
    line: &[u8],
    at: usize,
) -> Result<(), ProblemCause>
    requires within { at ≤ length line.now }
    requires from { 1 ≤ reading.old.given }
    requires to { reading.old.given ≤ 6 }
    ensures { TakesNumbers problem.now reading.old (spelled_number (words_at line.now at))
        result reading.new }
{
    let Some(word) = only_word(line, at) else {
        return Err(ProblemCause::Syntax);
    };
    let Some(number) = hexadecimal_number(word) else {
        return Err(ProblemCause::Syntax);
    };
    take_numbers(problem, reading, &[number])
}

/// Takes the line of the flags.
fn take_flags(
    problem: &Problem,
    reading: &mut StartReading,
    line: &[u8],
    at: usize,
) -> Result<(), ProblemCause>
    requires within { at ≤ length line.now }
    requires line { reading.old.given ≡ 7 }
    ensures { TakesNumbers problem.now reading.old (spelled_flags (words_at line.now at))
        result reading.new }
{
    let Some(word) = only_word(line, at) else {
        return Err(ProblemCause::Syntax);
    };
    let Some(flags) = flags_of(word) else {
        return Err(ProblemCause::Syntax);
    };
    take_numbers(problem, reading, &flags)
}

/// Takes the line of the nibbles, which may leave all of them out.
fn take_memory(
    problem: &Problem,
    reading: &mut StartReading,
    line: &[u8],
    at: usize,
) -> Result<(), ProblemCause>
    requires within { at ≤ length line.now }
    requires line { reading.old.given ≡ 8 }
    ensures { TakesNumbers problem.now reading.old (spelled_nibbles (words_at line.now at))
        result reading.new }
{
    match next_word(line, at) {
        None => take_nibbles(problem, reading, &[]),
        Some((word, end)) => {
            if next_word(line, end).is_some() || !are_digits(16, word) {
                return Err(ProblemCause::Syntax);
            }
            take_nibbles(problem, reading, word)
        }
    }
}

/// Takes what the line that is due says after its first word.
fn take_words(
    problem: &Problem,
    reading: &mut StartReading,
    line: &[u8],
    at: usize,
) -> Result<(), ProblemCause>
    requires within { at ≤ length line.now }
    requires line { reading.old.given < 10 }
    ensures { TakesNumbers problem.now reading.old (spelled reading.old.given (words_at line.now at)) result reading.new }
{
    match reading.given() {
        0 => take_begin(problem, reading, line, at),
        7 => take_flags(problem, reading, line, at),
        8 => take_memory(problem, reading, line, at),
        9 => take_end(problem, reading, line, at),
        _ => take_number(problem, reading, line, at),
    }
}

/// Takes one line of a start, which has no line feed. A line without words says nothing.
pub fn take_start_line(
    problem: &Problem,
    reading: &mut StartReading,
    line: &[u8],
) -> Result<(), ProblemCause>
    ensures { Takes (with_start_line (problem_of problem.now) reading.old (words_of line.now))
        result reading.new }
{
    match next_word(line, 0) {
        None => Ok(()),
        Some((word, at)) => {
            if word != line_name(reading.given()) {
                return Err(ProblemCause::Syntax);
            }
            take_words(problem, reading, line, at)
        }
    }
}
