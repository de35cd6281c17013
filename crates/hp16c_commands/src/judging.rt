//! The command `judge`: reads a problem, after which only empty lines may stand, and gives the
//! judge's answer as a text and what is kept. Commands that ask the judge something else tell its
//! answer by `answer_to` too.
ghost use Rattle.std.specs.Prelude.{◌≡◌, ◌+◌, ◌<◌, ◌≤◌, ◌^◌, length, Ok, Err, IfOk, IfErr, OnOk};
ghost use Rattle.jd_problem.specs.Problems.{problem_of};
ghost use Rattle.jd_problem.specs.ProblemTexts.{IsProblemTo};
ghost use Rattle.hp16c_commands.specs.Judging.{JudgeAnswers, IsTellable, judge_input, judgement, unknown_text};
ghost use Rattle.hp16c_commands.specs.Answered.{answer_of};
ghost use Rattle.hp16c_commands.specs.Told.{heading_text};
ghost use Rattle.hp16c_commands.specs.WholeInputs.{limit_of};
ghost use Rattle.std.specs.String.{string_bytes};

use crate::after_problem::line_after;
use crate::outcomes::{Kept, Outcome, Status};
use crate::path_texts::push_path;
use crate::told::{Answer, Heading};
use crate::whole_inputs::WholeInput;
use hp_io::Bytes;
use jd_judge::{Judged, judge};
use jd_problem::{Problem, read_problem};
use jd_readers::{TakesLines, read_lines};
use jd_rules::RuleSet;
use jd_text::next_word;
use std::alloc::{AllocError, Global};

/// Lines without words.
#[derive(Drop)]
struct EmptyLines;

impl TakesLines for EmptyLines {
    ghost use Rattle.std.specs.Prelude.{Bool, false, ⊤};
    ghost use Rattle.hp16c_commands.specs.Judging.{empty_line};

    type Cause = ();

    ghost State = { ⊤ };

    ghost state = { λ _. tt };

    ghost with_line = { λ _. empty_line };

    ghost is_whole = { λ _. false };

    fn take_line(&mut self, line: &[u8]) -> Result<(), ()> {
        if next_word(line, 0).is_some() {
            Err(())
        } else {
            Ok(())
        }
    }
}

/// Whether only empty lines follow a problem, or the number of the first other one in the whole text.
fn nothing_after(problem: &Problem, bytes: &[u8], count: usize) -> Result<(), u64>
    requires problem { IsProblemTo bytes.now (problem_of problem.now) count }
    requires short { length bytes.now + 1 < 2 ^ 32 }
    ensures nothing { OnOk result (judge_input bytes.now ≡ Ok (problem_of problem.now, tt)) }
    ensures fault { IfErr result (λ line. judge_input bytes.now ≡ Err line) }
{
    match read_lines(&mut EmptyLines, &bytes[count..]) {
        Ok(_) => Ok(()),
        Err((line, ())) => Err(line_after(bytes, count, line)),
    }
}

/// The problem that a text says, or the number of its first bad line.
pub fn read_input(bytes: &[u8]) -> Result<Problem, u64>
    requires { length bytes.now + 1 < 2 ^ 32 }
    ensures read { IfOk result (λ problem. judge_input bytes.now ≡ Ok (problem_of problem, tt)) }
    ensures fault { IfErr result (λ line. judge_input bytes.now ≡ Err line) }
{
    match read_problem(bytes) {
        Err(fault) => Err(u64::from(fault.line)),
        Ok((problem, count)) => match nothing_after(&problem, bytes, count) {
            Ok(()) => Ok(problem),
            Err(line) => Err(line),
        },
    }
}

/// The line that tells which path wasn't decided in so many lines of proof.
fn unknown_line(alloc: Global, path: &[bool], lines: usize) -> Result<String, AllocError>
    ensures { IfOk result (λ text. string_bytes text ≡ unknown_text path.now lines) }
{
    let mut text = String::from_str(alloc, "unknown ")?;
    push_path(&mut text, path)?;
    text.push_str(format!(in alloc; " {lines}\n")?.as_str())?;
    Ok(text)
}

/// What is told of the judge's answer to what was asked of a problem.
pub fn answer_to(
    alloc: Global,
    heading: Heading,
    problem: Problem,
    judged: Judged,
) -> Result<Answer, AllocError>
    requires { IsTellable (problem_of problem) judged }
    ensures { IfOk result (λ answer. answer_of answer ≡ judgement (heading_text heading (problem_of problem)) judged) }
{
    match judged {
        Judged::Equal(book, cert) => Ok(Answer::certificate(heading, problem, book, cert)),
        Judged::Different(start) => Ok(Answer::start(heading, problem, start)),
        Judged::Unknown(leaf, log) => {
            let text = unknown_line(alloc, leaf.path.as_slice(), log.lines().len())?;
            let outcome = Outcome {
                status: Status::Unknown,
                kept: Kept::Log(leaf, log),
            };
            Ok(Answer::with(outcome, text))
        }
        Judged::TooManyPaths(starts) => {
            let text = format!(in alloc; "paths {}\n", starts.len())?;
            let outcome = Outcome {
                status: Status::TooManyPaths,
                kept: Kept::Starts(starts),
            };
            Ok(Answer::with(outcome, text))
        }
    }
}

/// The judgement of a problem, for its bytes. It takes memory for the walk, the certificate and its
/// leaves.
pub fn judge_problem(alloc: Global, bytes: &Bytes, rules: &RuleSet) -> Result<Answer, AllocError>
    requires { length bytes.now ≤ limit_of WholeInput.Judge }
    ensures { IfOk result (λ answer. JudgeAnswers bytes.now (answer_of answer)) }
{
    match read_input(bytes.as_slice()) {
        Ok(problem) => match judge(alloc, &problem, rules) {
            Ok(judged) => answer_to(alloc, Heading::Problem, problem, judged),
            Err(_) => Err(AllocError),
        },
        Err(line) => Answer::bad_line(alloc, line),
    }
}
