//! Texts of codes, two hexadecimal digits each, read into a routine and written back.
ghost use Rattle.std.specs.Prelude.{◌≡◌, ◌+◌, ◌*◌, ◌<◌, ◌≤◌, ◌^◌, ◌∷◌, [], ◌++◌, length, Ok, Err, IfSome, IfOk, IfErr};
ghost use Rattle.arrayvec.specs.ArrayString.{array_string_len};
ghost use Rattle.jd_text.specs.Readings.{Takes};
ghost use Rattle.jd_model.specs.Assembly.{code_of_digits, code_of_word, with_code, routine_of_codes, code_text, codes_text};
ghost use Rattle.hp_asm.specs.Separated.{after};

use crate::faults::CodeFault;
use crate::routine::Routine;
use arrayvec::ArrayString;
use jd_numbers::{digit_value, push_digit};
use jd_readers::{TakesLines, read_lines};
use jd_text::next_word;

/// The code of two digits.
fn code_of_digits(high: u8, low: u8) -> Option<u8>
    requires high { high ≤ 16 }
    requires low { low ≤ 16 }
    ensures value { result ≡ code_of_digits high low }
    ensures range { IfSome result (λ code. code < 225) }
{
    if high < 16 && low < 16 && u16::from(high) * 16 + u16::from(low) < 225 {
        Some(16 * high + low)
    } else {
        None
    }
}

/// The code that a word is.
fn code_of(word: &[u8]) -> Option<u8>
    ensures value { result ≡ code_of_word word.now }
    ensures range { IfSome result (λ code. code < 225) }
{
    match word {
        [high, low] => code_of_digits(digit_value(*high), digit_value(*low)),
        _ => None,
    }
}

/// Adds the code that a word is. An `Err` where it is none or one too many.
fn take_code(routine: &mut Routine, word: &[u8]) -> Result<(), ()>
    ensures { Takes (with_code routine.old word.now) result routine.new }
{
    match code_of(word) {
        None => Err(()),
        Some(code) => {
            if routine.is_full() {
                return Err(());
            }
            routine.push(code);
            Ok(())
        }
    }
}

/// The operations of the lines of a text of codes.
#[derive(Drop)]
struct CodeLines {
    routine: Routine,
}

impl TakesLines for CodeLines {
    ghost use Rattle.std.specs.Prelude.{ℕ, false, List};
    ghost use Rattle.jd_model.specs.Assembly.{with_codes};

    type Cause = ();

    ghost State = { List ℕ };

    ghost state = { λ lines. lines.routine };

    ghost with_line = { λ _. with_codes };

    ghost is_whole = { λ _. false };

    fn take_line(&mut self, line: &[u8]) -> Result<(), ()> {
        let mut at = 0;
        'words: while let Some((word, end)) = next_word(line, at) {
            take_code(&mut self.routine, word)?;
            at = end;
        }
        Ok(())
    }
}

/// The routine of a text of codes, each two hexadecimal digits in either case. Words stand apart by
/// blanks, tabs, CR and line ends.
pub fn read_codes(bytes: &[u8]) -> Result<Routine, CodeFault>
    requires { length bytes.now + 1 < 2 ^ 32 }
    ensures routine { IfOk result (λ routine. routine_of_codes bytes.now ≡ Ok routine) }
    ensures fault { IfErr result (λ fault. routine_of_codes bytes.now ≡ Err (fault.line, tt)) }
{
    let mut lines = CodeLines {
        routine: Routine::new(),
    };
    match read_lines(&mut lines, bytes) {
        Ok(_) => Ok(lines.routine),
        Err((line, ())) => Err(CodeFault { line }),
    }
}

/// Adds the two digits of a code.
fn push_code(text: &mut ArrayString<1024>, code: u8)
    requires { array_string_len text.old + 2 ≤ 1024 }
    ensures text { text.new.bytes ≡ text.old.bytes ++ code_text code }
    ensures len { array_string_len text.new ≡ array_string_len text.old + 2 }
{
    push_digit(text, code / 16);
    push_digit(text, code % 16);
}

/// Adds a code after so many.
fn push_after(text: &mut ArrayString<1024>, count: usize, code: u8)
    requires { array_string_len text.old + 3 ≤ 1024 }
    ensures text { text.new.bytes ≡ text.old.bytes ++ after count (code_text code) }
    ensures len { array_string_len text.new ≤ array_string_len text.old + 3 }
{
    if count > 0 {
        text.push(' ');
    }
    push_code(text, code);
}

/// The codes of a routine on one line, each two hexadecimal digits in upper case, with a blank
/// between two.
pub fn codes(routine: &Routine) -> ArrayString<1024>
    ensures text { result.bytes ≡ codes_text routine.now }
    ensures reads_back { routine_of_codes result.bytes ≡ Ok routine.now }
{
    let mut text = ArrayString::new();
    let codes = routine.codes();
    for i in 0..codes.len() {
        push_after(&mut text, i, codes[i]);
    }
    text.push('\n');
    text
}
