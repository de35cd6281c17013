// Jumps, subroutines and their returns.
ghost use Rattle.std.specs.Prelude.{◌≡◌, ◌≤◌, Bool, List};
ghost use Rattle.hp_model.specs.Operations as ops;
ghost use Rattle.hp_ops.specs.Meaning.{named, of_jump};
ghost use Rattle.hp_control.specs.Controls.{Listing, InBounds, IsAnswered, IsFromALine, Does};

use crate::control::Control;
use crate::moves::{fail, finish_as_it_was};
use crate::program::Program;
use crate::targets::{gosub_line, goto_line};
use hp_model::{End, Stop};
use hp_ops::{Jump, Target};

/// A jump to a label.
#[inline(always)]
fn step_goto<P: Program>(control: &mut Control, program: &P, target: Target, given: &[bool]) -> Stop
    requires bounds { InBounds control.old (P.listing program.now) }
    requires answered { IsAnswered control.old (P.listing program.now)
        (ops.goto (named target)) given.now }
    ensures { Does control.old control.new (P.listing program.now)
        (ops.goto (named target)) given.now result }
{
    match goto_line(control, program, target, given) {
        Err(error) => fail(control, error),
        Ok(line) => {
            control.line = line;
            finish_as_it_was(control)
        }
    }
}

/// A call of a subroutine, which returns to the line number.
fn step_gosub<P: Program>(
    control: &mut Control,
    program: &P,
    target: Target,
    given: &[bool],
) -> Stop
    requires bounds { InBounds control.old (P.listing program.now) }
    requires line { 1 ≤ control.old.line }
    requires answered { IsAnswered control.old (P.listing program.now)
        (ops.gosub (named target)) given.now }
    ensures { Does control.old control.new (P.listing program.now)
        (ops.gosub (named target)) given.now result }
{
    match gosub_line(control, program, target, given) {
        Err(error) => fail(control, error),
        Ok(line) => {
            control.calls.push(control.line);
            control.line = line;
            finish_as_it_was(control)
        }
    }
}

/// To the last pending return, or the end of the run.
fn step_return(control: &mut Control) -> Stop
    ensures { (listing : Listing) (given : List Bool) → InBounds control.old listing
        → Does control.old control.new listing ops.to_caller given result }
{
    finish_as_it_was(control);
    match control.calls.pop() {
        None => {
            control.line = 0;
            Stop::Ended(End::Return)
        }
        Some(line) => {
            control.line = line;
            Stop::Go
        }
    }
}

/// An operation that decides which line comes next, whether it errs or not.
#[inline(always)]
pub(crate) fn step_jump<P: Program>(
    control: &mut Control,
    program: &P,
    op: Jump,
    given: &[bool],
) -> Stop
    requires bounds { InBounds control.old (P.listing program.now) }
    requires from { IsFromALine (of_jump op) control.old.line }
    requires answered { IsAnswered control.old (P.listing program.now) (of_jump op) given.now }
    ensures { Does control.old control.new (P.listing program.now) (of_jump op) given.now result }
{
    match op {
        Jump::Label(_) | Jump::Pause => finish_as_it_was(control),
        Jump::Goto(target) => step_goto(control, program, target, given),
        Jump::Gosub(target) => step_gosub(control, program, target, given),
        Jump::Return => step_return(control),
        Jump::RunStop => {
            finish_as_it_was(control);
            Stop::Ended(End::Halt)
        }
    }
}
