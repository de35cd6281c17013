//! How far a path's answers lead: through the first run and then the second, line by line, to a
//! question without an answer or to the difference of both ends. Each line takes at most 2^18 gates,
//! so the circuit always has room for those of the lines left.
ghost use Rattle.std.specs.Prelude.{◌≡◌, ℕ, ◌<◌, Bool, false, true, length, is_some, IfOk, OnOk, None, Some};
ghost use Rattle.jd_model.specs.Problems.{Problem as ProblemOf};
ghost use Rattle.jd_circuit.specs.Net.{Grows};
ghost use Rattle.jd_problem.specs.Problems.{problem_of};
ghost use Rattle.jd_walk.specs.NextLine.{nibbles_of};
ghost use Rattle.jd_walk.specs.Rooms.{HasRoom, HasRoomAfter, HasRoomAt, all_lines, gates_to_end};
ghost use Rattle.jd_walk.specs.Spots.{EndsHold, IsFor, IsAt, IsPlaced, IsReached, IsRun, IsTurned, NextHolds, StandsAfter, FirstGoes, end_of};
ghost use Rattle.jd_walk.specs.Walked.{is_done, most_gates};

use crate::begins::second_begins;
use crate::lines::{line_asks, line_step};
use crate::places::{FirstEnd, Next, RunEnd};
use hp_model::{End, Stop};
use jd_circuit::{Circuit, Lit, NoMemory, Rewrite};
use jd_difference::difference;
use jd_problem::Problem;
use jd_symbolic::SymMachine;
use std::alloc::Global;
use std::mem;

/// Where a run stands: its machine, how many lines are left, and where on the path the answers to
/// the next line begin.
#[derive(Drop)]
pub struct Position {
    pub machine: SymMachine,
    pub left: u16,
    pub from: usize,
}

/// Where a run comes to: the literal of a question, or its end, which is None where it is late.
#[derive(Drop)]
pub enum Reach {
    Ask(Lit),
    Over(Option<End>),
}

/// Goes on to the next question, over one line, or to the end of the run.
fn turn<W: Rewrite>(
    c: &mut Circuit<'_, W>,
    path: &[bool],
    at: &mut Position,
) -> Result<Option<Reach>, NoMemory>
    requires placed { IsPlaced c.old path.now at.old }
    requires room { HasRoom all_lines (length c.old.gates) (length path.now) at.old }
    ensures grows { Grows c.old c.new }
    ensures stands { IfOk result (StandsAfter c.new path.now at.new) }
    ensures room { IfOk result (λ r. (most : ℕ) → HasRoom most (length c.old.gates) (length path.now) at.old → HasRoomAfter most (length c.new.gates) (length path.now) at.new r) }
    ensures memory { OnOk result (nibbles_of at.new.machine ≡ nibbles_of at.old.machine) }
    ensures less { IfOk result (λ r. r ≡ None → at.new.left < at.old.left) }
    ensures turned { IfOk result (λ r. (p : ProblemOf) (second : Bool) → IsFor p c.old → IsAt p second c.old path.now at.old → IsTurned p second c.new path.now at.new r) }
{
    if at.left == 0 {
        return Ok(Some(Reach::Over(None)));
    }
    let given = &path[at.from..];
    if let Some(l) = line_asks(&mut at.machine, c, given)? {
        return Ok(Some(Reach::Ask(l)));
    }
    let stop = line_step(&mut at.machine, c, given)?;
    match stop {
        Stop::Ended(end) => Ok(Some(Reach::Over(Some(end)))),
        Stop::Go => {
            at.left -= 1;
            at.from = path.len();
            Ok(None)
        }
    }
}

/// Goes on to the next question, or to the end of the run.
pub fn go_on<W: Rewrite>(
    c: &mut Circuit<'_, W>,
    path: &[bool],
    at: &mut Position,
) -> Result<Reach, NoMemory>
    requires placed { IsPlaced c.old path.now at.old }
    requires room { HasRoom all_lines (length c.old.gates) (length path.now) at.old }
    ensures grows { Grows c.old c.new }
    ensures stands { IfOk result (λ r. StandsAfter c.new path.now at.new (Some r)) }
    ensures room { IfOk result (λ r. (most : ℕ) → HasRoom most (length c.old.gates) (length path.now) at.old → HasRoomAfter most (length c.new.gates) (length path.now) at.new (Some r)) }
    ensures memory { OnOk result (nibbles_of at.new.machine ≡ nibbles_of at.old.machine) }
    ensures reached { IfOk result (λ r. (p : ProblemOf) (second : Bool) → IsFor p c.old → IsAt p second c.old path.now at.old → IsReached p second c.new path.now at.new r) }
{
    'lines: loop {
        if let Some(reach) = turn(c, path, at)? {
            return Ok(reach);
        }
    }
}

/// What comes next in the second run, where the first run ended like this.
pub fn second_next<W: Rewrite>(
    c: &mut Circuit<'_, W>,
    problem: &Problem,
    path: &[bool],
    first: &RunEnd,
    at: &mut Position,
    last: &mut Option<End>,
) -> Result<Next, NoMemory>
    requires inputs { IsFor (problem_of problem.now) c.old }
    requires run { IsRun (problem_of problem.now) c.old path.now (Some first.now) at.old }
    requires room { HasRoom (gates_to_end (problem_of problem.now) true) (length c.old.gates) (length path.now) at.old }
    ensures grows { Grows c.old c.new }
    ensures run { IfOk result (λ n. is_done (Some n) ≡ false → IsRun (problem_of problem.now) c.new path.now (Some first.now) at.new) }
    ensures said { IfOk result (λ n. NextHolds (problem_of problem.now) c.new path.now at.new (Some n)) }
    ensures ends { IfOk result (λ n. EndsHold (problem_of problem.now) c.new path.now (Some first.now) at.new last.new (Some n)) }
    ensures room { IfOk result (λ n. HasRoomAt (problem_of problem.now) true (most_gates (problem_of problem.now)) (length c.new.gates) (length path.now) at.new (Some n)) }
{
    match go_on(c, path, at)? {
        Reach::Ask(l) => Ok(Next::Ask(l)),
        Reach::Over(end) => {
            let l = difference(
                c,
                problem,
                first.end,
                &first.content,
                end,
                &at.machine.content,
            )?;
            *last = end;
            Ok(Next::Done(l))
        }
    }
}

/// What comes next where the first run stands, or where it has ended and the second stands.
pub fn find_next<W: Rewrite>(
    alloc: Global,
    c: &mut Circuit<'_, W>,
    problem: &Problem,
    path: &[bool],
    first: &mut Option<FirstEnd>,
    at: &mut Position,
    last: &mut Option<End>,
) -> Result<Next, NoMemory>
    requires inputs { IsFor (problem_of problem.now) c.old }
    requires run { IsRun (problem_of problem.now) c.old path.now (end_of first.old) at.old }
    requires room { HasRoom (gates_to_end (problem_of problem.now) (is_some (end_of first.old))) (length c.old.gates) (length path.now) at.old }
    ensures grows { OnOk result (Grows c.old c.new) }
    ensures first { OnOk result (FirstGoes (length path.now) first.old first.new) }
    ensures run { IfOk result (λ n. is_done (Some n) ≡ false → IsRun (problem_of problem.now) c.new path.now (end_of first.new) at.new) }
    ensures said { IfOk result (λ n. NextHolds (problem_of problem.now) c.new path.now at.new (Some n)) }
    ensures ends { IfOk result (λ n. EndsHold (problem_of problem.now) c.new path.now (end_of first.new) at.new last.new (Some n)) }
    ensures room { IfOk result (λ n. HasRoomAt (problem_of problem.now) (is_some (end_of first.new)) (most_gates (problem_of problem.now)) (length c.new.gates) (length path.now) at.new (Some n)) }
{
    let before = mem::replace(first, None);
    match before {
        Some(ended) => {
            let next = second_next(c, problem, path, &ended.run, at, last)?;
            *first = Some(ended);
            Ok(next)
        }
        None => match go_on(c, path, at)? {
            Reach::Ask(l) => Ok(Next::Ask(l)),
            Reach::Over(end) => {
                let ended = second_begins(alloc, c, problem, path.len(), end, at)?;
                let next = second_next(c, problem, path, &ended.run, at, last)?;
                *first = Some(ended);
                Ok(next)
            }
        },
    }
}
