//! Tells the lines of a certificate whose words are always the same, such as the first one and the
//! ends of leaves. Only words are compared, so blanks between them don't matter, and no memory is
//! taken.
ghost use Rattle.std.specs.Prelude.{◌≡◌, ◌≤◌, ◌∷◌, [], length};
ghost use Rattle.jd_text.specs.Words.{words_of, are_texts};
ghost use Rattle.jd_text.specs.Places.{words_at};
ghost use Rattle.jd_trees.specs.CertLines.{first_words, only};

use jd_text::{is_text, next_word};

/// Whether this word stands alone from a place of a line on.
fn is_last(word: &[u8], line: &[u8], at: usize) -> bool
    requires { at ≤ length line.now }
    ensures { result ≡ are_texts (word.now ∷ []) (words_at line.now at) }
{
    match next_word(line, at) {
        None => false,
        Some((next, end)) => is_text(word, next) && next_word(line, end).is_none(),
    }
}

/// Whether a line is this word alone.
pub fn is_only(word: &[u8], line: &[u8]) -> bool
    ensures { result ≡ are_texts (only word.now) (words_of line.now) }
{
    is_last(word, line, 0)
}

/// Whether a line is the first of a certificate.
pub fn is_first(line: &[u8]) -> bool
    ensures { result ≡ are_texts first_words (words_of line.now) }
{
    match next_word(line, 0) {
        None => false,
        Some((next, end)) => is_text(b"certificate", next) && is_last(b"1", line, end),
    }
}
