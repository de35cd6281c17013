//! The operation that a line of assembly is, found among the texts of all codes, so that the table
//! of texts stands once, in `hp_ops`.
ghost use Rattle.std.specs.Prelude.{◌≡◌, ◌<◌, ◌≤◌, length, IfSome};
ghost use Rattle.jd_text.specs.Words.{words_of, are_texts};
ghost use Rattle.jd_model.specs.Assembly.{text_of_code, is_code_text, code_of_words, begins_code, begins_text, is_float_key};

use arrayvec::ArrayString;
use hp_ops::Op;
use jd_text::{is_text, next_word};

/// How many codes there are.
const CODES: u8 = 225;

/// The text of a code's operation.
pub fn text_of(code: u8) -> ArrayString<16>
    requires { code < 225 }
    ensures { result.bytes ≡ text_of_code code }
{
    Op::of_code(code).unwrap().text()
}

/// Whether the words of a line are those of a text.
fn are_words(text: &[u8], line: &[u8]) -> bool
    ensures { result ≡ are_texts (words_of text.now) (words_of line.now) }
{
    let mut at = 0;
    let mut i = 0;
    'words: while let Some((word, end)) = next_word(text, at) {
        match next_word(line, i) {
            None => return false,
            Some((other, next)) => {
                if !is_text(word, other) {
                    return false;
                }
                at = end;
                i = next;
            }
        }
    }
    next_word(line, i).is_none()
}

/// Whether the words of a line are those of a code's text.
fn is_code_text(line: &[u8], code: u8) -> bool
    requires { code < 225 }
    ensures { result ≡ is_code_text (words_of line.now) code }
{
    are_words(text_of(code).as_str().as_bytes(), line)
}

/// The code whose text has the words of a line.
pub fn code_of(line: &[u8]) -> Option<u8>
    ensures found { result ≡ code_of_words (words_of line.now) }
    ensures range { IfSome result (λ code. code < 225) }
{
    for code in 0..CODES {
        if is_code_text(line, code) {
            return Some(code);
        }
    }
    None
}

/// Whether a word is the first of a code's text.
fn begins_code(word: &[u8], code: u8) -> bool
    requires { code < 225 }
    ensures { result ≡ begins_code word.now code }
{
    match next_word(text_of(code).as_str().as_bytes(), 0) {
        None => false,
        Some((first, _)) => is_text(first, word),
    }
}

/// Whether an operation's text begins with a word.
pub fn begins_text(word: &[u8]) -> bool
    ensures { result ≡ begins_text word.now }
{
    for code in 0..CODES {
        if begins_code(word, code) {
            return true;
        }
    }
    false
}

/// Whether a word is a key of the floating-point mode.
pub fn is_float_key(word: &[u8]) -> bool
    ensures { result ≡ is_float_key word.now }
{
    is_text(b"FLOAT", word) || is_text(b"EEX", word) || is_text(b"1/X", word) || is_text(b".", word)
}
