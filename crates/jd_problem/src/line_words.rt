// What the lines of a problem say after their first word, whatever stood before them. None means
// that a line isn't formed as its kind says.
ghost use Rattle.std.specs.Prelude.{◌≡◌, ◌≤◌, [], ◌∷◌, length, MatchOption, option_map, Some, None};
ghost use Rattle.jd_text.specs.Words.{words_of};
ghost use Rattle.jd_text.specs.Places.{words_at};
ghost use Rattle.jd_model.specs.ProblemLines.{number, part_at, assuming, one_number, parts_named, one_part_and_value, one_assumption};
ghost use Rattle.jd_start.specs.Parts.{place_of};
ghost use Rattle.jd_problem.specs.LineWords.{only_word, ObservesParts};

use jd_model::Assume;
use jd_numbers::{decimal_number, hexadecimal_number};
use jd_start::{Part, Parts, against_named, num_part_named, relation_named};
use jd_text::next_word;

/// The word that stands alone from a place of a line on.
pub fn only_word(line: &[u8], at: usize) -> Option<&[u8]>
    requires { at ≤ length line.now }
    ensures { MatchOption result (only_word (words_at line.now at) ≡ None)
        (λ word. words_at line.now at ≡ word.now ∷ []) }
{
    let (word, end) = next_word(line, at)?;
    if next_word(line, end).is_some() {
        return None;
    }
    Some(word)
}

/// One number in decimal, of 1 to 10 digits, and no word more.
pub fn one_number(line: &[u8]) -> Option<u64>
    ensures { option_map number result ≡ one_number (words_of line.now) }
{
    decimal_number(only_word(line, 0)?)
}

/// A part and a number in hexadecimal.
pub fn part_and_value(line: &[u8]) -> Option<(Part, u64)>
    ensures { option_map (λ said. part_at (place_of said.0) said.1) result
        ≡ one_part_and_value (words_of line.now) }
{
    let (name, end) = next_word(line, 0)?;
    let value = only_word(line, end)?;
    let part = Part::named(name)?;
    let number = hexadecimal_number(value)?;
    Some((part, number))
}

/// A part, a relation, and a part or a number in hexadecimal.
pub fn assumption(line: &[u8]) -> Option<Assume>
    ensures { option_map assuming result ≡ one_assumption (words_of line.now) }
{
    let (left, at) = next_word(line, 0)?;
    let (relation, at) = next_word(line, at)?;
    let right = only_word(line, at)?;
    Some(Assume {
        left: num_part_named(left)?,
        relation: relation_named(relation)?,
        right: against_named(right)?,
    })
}

/// Any number of parts, and whether one of them stands there twice.
pub fn observed_parts(line: &[u8]) -> Option<(Parts, bool)>
    ensures { MatchOption result (parts_named (words_of line.now) ≡ None)
        (λ said. ObservesParts (words_of line.now) said.0 said.1) }
{
    let mut parts = Parts::none();
    let mut twice = false;
    let mut at = 0;
    'words: while let Some((word, end)) = next_word(line, at) {
        let part = Part::named(word)?;
        twice = twice || parts.contains(part);
        parts.insert(part);
        at = end;
    }
    Some((parts, twice))
}
