//! The words of a line: a comment's, those that are always the same, and numbers of any length,
//! which are capped at a bound.
ghost use Rattle.std.specs.Prelude.{◌≡◌, ◌+◌, ◌<◌, ◌≤◌, length, MatchOption, None, Some, ◌*◌, ◌^◌, min};
ghost use Rattle.jd_text.specs.Words.{words_of};
ghost use Rattle.jd_logic.specs.Numerals.{is_skipped, is_digit, number_of, integer_of, negative_of, natural_of};
ghost use Rattle.jd_text.specs.Places.{words_at};
ghost use Rattle.jd_lrat.specs.LineTexts.{is_nil};
ghost use Rattle.jd_lrat.specs.CnfTexts.{after_word};
ghost use Rattle.jd_lrat.specs.Integers.{IsNumberTo, IsIntegerTo, IsValueTo};

use jd_text::{is_text, next_word, skip_separators};

/// Whether a line is a comment, or has no words.
pub fn is_skipped(line: &[u8]) -> bool
    ensures { result ≡ is_skipped (words_of line.now) }
{
    let at = skip_separators(line, 0);
    at == line.len() || line[at] == b'c'
}

/// Whether no word is left from a place on.
pub fn is_done(text: &[u8], at: usize) -> bool
    requires { at ≤ length text.now }
    ensures { result ≡ is_nil (words_at text.now at) }
{
    next_word(text, at).is_none()
}

/// The place after the next word, where that is this text.
pub fn after_word(word: &[u8], text: &[u8], at: usize) -> Option<usize>
    requires { at ≤ length text.now }
    ensures { MatchOption result
        (after_word word.now (words_at text.now at) ≡ None)
        (λ end. (after_word word.now (words_at text.now at) ≡ Some (words_at text.now end))
        × (end ≤ length text.now)) }
{
    let (next, end) = next_word(text, at)?;
    if is_text(word, next) { Some(end) } else { None }
}

/// The number that digits are, as far as a bound, or None where the word isn't one.
pub fn number(word: &[u8], bound: u64) -> Option<u64>
    requires { bound < 2 ^ 63 + 1 }
    ensures { MatchOption result (number_of word.now ≡ None) (λ v. IsNumberTo bound word.now v) }
{
    if word.is_empty() || (word.len() > 1 && word[0] == b'0') {
        return None;
    }
    let mut v: u64 = 0;
    for b in word {
        if !is_digit(*b) {
            return None;
        }
        let d = (*b - b'0') as u64;
        v = capped(v, d, bound);
    }
    Some(v)
}

/// Whether a byte is a digit.
pub fn is_digit(b: u8) -> bool
    ensures { result ≡ is_digit b }
{
    b'0' <= b && b <= b'9'
}

/// Ten times a number and a digit more, or the bound where that is less.
fn capped(v: u64, d: u64, bound: u64) -> u64
    requires digit { d < 10 }
    requires within { v ≤ bound }
    requires small { bound < 2 ^ 63 + 1 }
    ensures { result ≡ min (10 * v + d) bound }
{
    if v > bound / 10 || 10 * v + d > bound {
        bound
    } else {
        10 * v + d
    }
}

/// The whole number that a word is: whether it is below 0, and its magnitude as far as a bound.
pub fn integer(word: &[u8], bound: u64) -> Option<(bool, u64)>
    requires some { 0 < bound }
    requires small { bound < 2 ^ 63 + 1 }
    ensures { MatchOption result (integer_of word.now ≡ None) (λ v. IsIntegerTo bound word.now v.0 v.1) }
{
    if word.is_empty() {
        return None;
    }
    if word[0] == b'-' {
        negative(&word[1..], bound)
    } else {
        natural(word, bound)
    }
}

fn negative(word: &[u8], bound: u64) -> Option<(bool, u64)>
    requires some { 0 < bound }
    requires small { bound < 2 ^ 63 + 1 }
    ensures { MatchOption result (negative_of word.now ≡ None) (λ v. IsValueTo bound (negative_of word.now) v.0 v.1) }
{
    match number(word, bound) {
        None => None,
        Some(v) => { if v == 0 { None } else { Some((true, v)) } }
    }
}

fn natural(word: &[u8], bound: u64) -> Option<(bool, u64)>
    requires { bound < 2 ^ 63 + 1 }
    ensures { MatchOption result (natural_of word.now ≡ None) (λ v. IsValueTo bound (natural_of word.now) v.0 v.1) }
{
    match number(word, bound) {
        None => None,
        Some(v) => Some((false, v)),
    }
}
