//! The command `check`: what the check of a source says, as a text and an outcome. `jd_checking`
//! reads and checks; only its answer is held here.
ghost use Rattle.std.specs.Prelude.{◌≡◌, ◌+◌, ◌≤◌, IfOk, Err};
ghost use Rattle.hp_io.specs.Causes.{CallsAtMost, Rose};
ghost use Rattle.jd_model.specs.Problems.{Problem};
ghost use Rattle.jd_trees.specs.Trees.{Tree};
ghost use Rattle.jd_check.specs.Runs.{IsChecked};
ghost use Rattle.hp16c_commands.specs.Checking.{IsCheckOf, check_line};
ghost use Rattle.hp16c_commands.specs.Answered.{answer_of};
ghost use Rattle.hp16c_commands.specs.WholeInputs.{limit_of, IsAnswer};
ghost use Rattle.std.specs.String.{string_bytes};

use crate::outcomes::{Kept, Outcome, Status};
use crate::path_texts::push_path;
use crate::told::Answer;
use crate::whole_inputs::WholeInput;
use hp_io::{ReadStop, Source};
use jd_checking::{LineStop, SourceChecked, check_source};
use jd_judge::Checked;
use jd_rules::RuleSet;
use std::alloc::{AllocError, Global};

/// A line of a name, a path and what follows.
fn line_of(alloc: Global, name: &str, path: &[bool], after: &str) -> Result<String, AllocError>
    ensures { IfOk result (λ text. string_bytes text ≡ check_line name.now path.now after.now) }
{
    let mut text = String::from_str(alloc, name)?;
    text.push(' ')?;
    push_path(&mut text, path)?;
    text.push_str(after)?;
    text.push('\n')?;
    Ok(text)
}

/// A refused certificate.
fn refused(text: String, kept: Kept) -> Answer
    ensures { answer_of result ≡ record { outcome = record { status = Status.CertRefused; kept = kept }; text = string_bytes text } }
{
    let outcome = Outcome {
        status: Status::CertRefused,
        kept,
    };
    Answer::with(outcome, text)
}

/// What is answered where a certificate was checked.
fn answer_to(alloc: Global, checked: Checked) -> Result<Answer, AllocError>
    ensures { IfOk result (λ answer. (p : Problem) (tree : Tree) → IsChecked p tree checked → IsCheckOf p tree (answer_of answer)) }
{
    match checked {
        Checked::Equal(book) => {
            let outcome = Outcome {
                status: Status::Done,
                kept: Kept::Checked(book),
            };
            Ok(Answer::with(outcome, String::from_str(alloc, "equal\n")?))
        }
        Checked::Shape(path) => {
            let text = line_of(alloc, "shape", path.as_slice(), "")?;
            Ok(refused(text, Kept::Shape(path)))
        }
        Checked::Bad {
            book,
            path,
            line,
            cause,
        } => {
            let after = format!(in alloc; " {line} {cause}")?;
            let text = line_of(alloc, "bad", path.as_slice(), after.as_str())?;
            Ok(refused(
                text,
                Kept::Refused {
                    book,
                    path,
                    line,
                    cause,
                },
            ))
        }
        Checked::More { book, path } => {
            let text = line_of(alloc, "more", path.as_slice(), "")?;
            Ok(refused(text, Kept::More { book, path }))
        }
    }
}

/// The check of a source's problem and certificate, line by line: neither is kept. It takes memory for
/// the walk and its leaves.
pub fn check_certificate<S: Source>(
    alloc: Global,
    source: &mut S,
    rules: &RuleSet,
) -> Result<Answer, ReadStop>
    ensures answer { IfOk result (λ answer. IsAnswer WholeInput.Check
        (S.left source.old) (S.left source.new) (answer_of answer)) }
    ensures failed { result ≡ Err ReadStop.Failed
        → Rose (S.faults source.old) (S.faults source.new) }
    ensures faults { S.faults source.old ≤ S.faults source.new }
    ensures calls { CallsAtMost (limit_of WholeInput.Check + 1) (S.calls source.old) (S.calls source.new) }
{
    let found = match check_source(alloc, source, WholeInput::Check.limit(), rules) {
        Ok(SourceChecked::Checked(checked)) => answer_to(alloc, checked),
        Ok(SourceChecked::BadLine(line)) => Answer::bad_line(alloc, line),
        Err(LineStop::TooLong) => Answer::too_long(alloc),
        Err(LineStop::Failed) => return Err(ReadStop::Failed),
        Err(LineStop::NoMemory) => return Err(ReadStop::NoMemory),
    };
    match found {
        Ok(answer) => Ok(answer),
        Err(AllocError) => Err(ReadStop::NoMemory),
    }
}
