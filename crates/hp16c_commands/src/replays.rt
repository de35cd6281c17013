//! The command `replay`: reads a problem and then a start, runs both routines from it and tells
//! what is seen of them.
ghost use Rattle.std.specs.Prelude.{◌≡◌, ◌+◌, ◌<◌, ◌≤◌, ◌^◌, length, true, Ok, Err, IfOk, IfErr};
ghost use Rattle.jd_model.specs.Problems.{allows};
ghost use Rattle.jd_model.specs.Replays.{replay_input, replay_text, verdict};
ghost use Rattle.jd_model.specs.Seen.{agree};
ghost use Rattle.jd_problem.specs.Problems.{problem_of};
ghost use Rattle.jd_problem.specs.ProblemTexts.{IsProblemTo};
ghost use Rattle.jd_start.specs.Starts.{start_data};
ghost use Rattle.hp16c_commands.specs.Answers.{told};
ghost use Rattle.hp16c_commands.specs.Answered.{answer_of};
ghost use Rattle.hp16c_commands.specs.WholeInputs.{limit_of};
ghost use Rattle.hp16c_commands.specs.Replays.{status_of_agreement, replay_answer};

use crate::after_problem::line_after;
use crate::outcomes::{Outcome, Status};
use crate::told::Answer;
use crate::whole_inputs::WholeInput;
use hp_io::Bytes;
use jd_problem::{Problem, Start, read_problem, read_start};
use jd_replay::{agree, replay, seen_text};
use std::alloc::{AllocError, Global};

/// The status of a replay.
fn status_of(agreed: bool) -> Status
    ensures { result ≡ status_of_agreement agreed }
{
    if agreed {
        Status::Done
    } else {
        Status::Different
    }
}

/// The last line of a replay.
fn verdict(agreed: bool) -> &'static str
    ensures { result.now ≡ verdict agreed }
{
    if agreed { "agree\n" } else { "differ\n" }
}

/// The start after a problem's lines, or the number of the first bad line in the whole text.
fn read_start_after(problem: &Problem, bytes: &[u8], count: usize) -> Result<Start, u64>
    requires problem { IsProblemTo bytes.now (problem_of problem.now) count }
    requires short { length bytes.now + 1 < 2 ^ 32 }
    ensures start { IfOk result (λ start. replay_input bytes.now ≡ Ok (problem_of problem.now, start_data start)) }
    ensures allowed { IfOk result (λ start. allows (problem_of problem.now) (start_data start) ≡ true) }
    ensures fault { IfErr result (λ line. replay_input bytes.now ≡ Err line) }
{
    match read_start(problem, &bytes[count..]) {
        Ok(start) => Ok(start),
        Err(fault) => Err(line_after(bytes, count, fault.line)),
    }
}

/// The problem and the start that a text says, or the number of its first bad line.
fn read_input(bytes: &[u8]) -> Result<(Problem, Start), u64>
    requires { length bytes.now + 1 < 2 ^ 32 }
    ensures read { IfOk result (λ read. replay_input bytes.now ≡ Ok (problem_of read.0, start_data read.1)) }
    ensures allowed { IfOk result (λ read. allows (problem_of read.0) (start_data read.1) ≡ true) }
    ensures fault { IfErr result (λ line. replay_input bytes.now ≡ Err line) }
{
    match read_problem(bytes) {
        Err(fault) => Err(u64::from(fault.line)),
        Ok((problem, count)) => match read_start_after(&problem, bytes, count) {
            Ok(start) => Ok((problem, start)),
            Err(line) => Err(line),
        },
    }
}

/// What is seen of both routines from a start, and whether they agree.
fn replay_from(alloc: Global, problem: &Problem, start: &Start) -> Result<Answer, AllocError>
    requires { allows (problem_of problem.now) (start_data start.now) ≡ true }
    ensures { IfOk result (λ answer. answer_of answer ≡ told (status_of_agreement (agree (problem_of problem.now) (start_data start.now)))
        (replay_text (problem_of problem.now) (start_data start.now))) }
{
    let (first, second) = replay(problem, start);
    let agreed = agree(problem, &first, &second);
    let mut text = String::from_str(alloc, "first")?;
    text.push_str(seen_text(problem, &first).as_str())?;
    text.push_str("second")?;
    text.push_str(seen_text(problem, &second).as_str())?;
    text.push_str(verdict(agreed))?;
    Ok(Answer::with(Outcome::of(status_of(agreed)), text))
}

/// A replay of the start that follows a problem, for the bytes of both.
pub fn replay_start(alloc: Global, bytes: &Bytes) -> Result<Answer, AllocError>
    requires { length bytes.now ≤ limit_of WholeInput.Replay }
    ensures { IfOk result (λ answer. answer_of answer ≡ replay_answer bytes.now) }
{
    match read_input(bytes.as_slice()) {
        Ok((problem, start)) => replay_from(alloc, &problem, &start),
        Err(line) => Answer::bad_line(alloc, line),
    }
}
