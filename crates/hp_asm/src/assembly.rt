//! Assembly texts, read line by line into a routine and written back. A line's operation is found
//! in `operations`; a text's lines come from `jd_readers`.
ghost use Rattle.std.specs.Prelude.{◌≡◌, ◌+◌, ◌<◌, ◌≤◌, ◌^◌, ◌∷◌, [], ◌++◌, length, Ok, Err, OnErr, IfOk, IfErr};
ghost use Rattle.arrayvec.specs.ArrayString.{array_string_len};
ghost use Rattle.jd_text.specs.Words.{words_of};
ghost use Rattle.jd_text.specs.Readings.{Takes};
ghost use Rattle.jd_model.specs.Assembly.{IsRoutine, text_of_code, with_operation, with_line, assembled, listing};

use crate::faults::AsmFault;
use crate::operations::{begins_text, code_of, is_float_key, text_of};
use crate::routine::Routine;
use arrayvec::ArrayString;
use jd_model::AsmCause;
use jd_readers::{TakesLines, read_lines};
use jd_text::next_word;

/// Adds the operation that a line is, whatever its first word.
fn take_operation(routine: &mut Routine, line: &[u8]) -> Result<(), AsmCause>
    ensures takes { Takes (with_operation routine.old (words_of line.now)) result routine.new }
    ensures unchanged { OnErr result (routine.new ≡ routine.old) }
{
    match code_of(line) {
        None => Err(AsmCause::BadOperand),
        Some(code) => {
            if routine.is_full() {
                return Err(AsmCause::TooManyLines);
            }
            routine.push(code);
            Ok(())
        }
    }
}

/// Adds the operation of one line of assembly, which has no line feed. A line without words adds
/// nothing.
pub fn take_line(routine: &mut Routine, line: &[u8]) -> Result<(), AsmCause>
    ensures takes { Takes (with_line routine.old (words_of line.now)) result routine.new }
    ensures unchanged { OnErr result (routine.new ≡ routine.old) }
{
    match next_word(line, 0) {
        None => Ok(()),
        Some((word, _)) => {
            if is_float_key(word) {
                Err(AsmCause::FloatKey)
            } else if begins_text(word) {
                take_operation(routine, line)
            } else {
                Err(AsmCause::UnknownWord)
            }
        }
    }
}

/// The operations of the lines of an assembly text.
#[derive(Drop)]
struct AssemblyLines {
    routine: Routine,
}

impl TakesLines for AssemblyLines {
    ghost use Rattle.std.specs.Prelude.{ℕ, false, List};
    ghost use Rattle.jd_model.specs.Assembly.{with_line as with_assembly_line};

    type Cause = AsmCause;

    ghost State = { List ℕ };

    ghost state = { λ lines. lines.routine };

    ghost with_line = { λ _. with_assembly_line };

    ghost is_whole = { λ _. false };

    fn take_line(&mut self, line: &[u8]) -> Result<(), AsmCause> {
        take_line(&mut self.routine, line)
    }
}

/// The routine that an assembly text is: on each line one operation, by its listing text. Words stand
/// apart by blanks, tabs and CR, and lines without words are skipped.
pub fn assemble(text: &[u8]) -> Result<Routine, AsmFault>
    requires { length text.now + 1 < 2 ^ 32 }
    ensures routine { IfOk result (λ routine. assembled text.now ≡ Ok routine) }
    ensures fault { IfErr result (λ fault. assembled text.now ≡ Err (fault.line, fault.cause)) }
{
    let mut lines = AssemblyLines {
        routine: Routine::new(),
    };
    match read_lines(&mut lines, text) {
        Ok(_) => Ok(lines.routine),
        Err((line, cause)) => Err(AsmFault { line, cause }),
    }
}

/// Adds the line of a code's operation.
fn push_line(text: &mut ArrayString<2048>, code: u8)
    requires code { code < 225 }
    requires room { array_string_len text.old + 9 ≤ 2048 }
    ensures line { text.new.bytes ≡ text.old.bytes ++ (text_of_code code ++ 10 ∷ []) }
    ensures len { array_string_len text.new ≤ array_string_len text.old + 9 }
{
    text.push_str(text_of(code).as_str());
    text.push('\n');
}

/// The assembly text of a routine: the listing text of each operation on a line of its own.
pub fn list(routine: &Routine) -> ArrayString<2048>
    ensures text { result.bytes ≡ listing routine.now }
    ensures reads_back { assembled result.bytes ≡ Ok routine.now }
    ensures routine { IsRoutine routine.now }
    ensures len { array_string_len result ≤ 1827 }
{
    let mut text = ArrayString::new();
    for code in routine.codes() {
        push_line(&mut text, *code);
    }
    text
}
