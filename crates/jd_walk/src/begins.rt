//! Both runs begin at the same inputs of one circuit, without a gate, so their ends can be compared
//! there. Of the first run's machine only the content is kept once the second begins.
ghost use Rattle.std.specs.Prelude.{◌≡◌, true, IfOk, OnOk};
ghost use Rattle.jd_problem.specs.Problems.{problem_of};
ghost use Rattle.jd_walk.specs.Spots.{IsFor, IsBegun};

use crate::places::{FirstEnd, RunEnd};
use crate::runs::Position;
use hp_model::End;
use jd_circuit::{Circuit, NoMemory, Rewrite};
use jd_problem::Problem;
use jd_symbolic::SymMachine;
use std::alloc::Global;
use std::mem;

/// The machine with which the run of the first routine begins, or of the second.
pub fn begun<W: Rewrite>(
    alloc: Global,
    c: &mut Circuit<'_, W>,
    problem: &Problem,
    second: bool,
) -> Result<SymMachine, NoMemory>
    requires { IsFor (problem_of problem.now) c.old }
    ensures same { c.new ≡ c.old }
    ensures begun { IfOk result (IsBegun (problem_of problem.now) second c.new) }
{
    // The blocks say that the problem is in its ranges.
    let _ = problem.blocks();
    let machine = SymMachine::begin(alloc, c, problem, second)?;
    Ok(machine)
}

/// Begins the second run where the first has ended, after a path of this length.
pub fn second_begins<W: Rewrite>(
    alloc: Global,
    c: &mut Circuit<'_, W>,
    problem: &Problem,
    length: usize,
    end: Option<End>,
    at: &mut Position,
) -> Result<FirstEnd, NoMemory>
    requires { IsFor (problem_of problem.now) c.old }
    ensures same { c.new ≡ c.old }
    ensures first { IfOk result (λ f. f ≡ record { path = length; run = record { end = end; content = at.old.machine.content } }) }
    ensures from { OnOk result (at.new.from ≡ length) }
    ensures left { OnOk result (at.new.left ≡ (problem_of problem.now).steps) }
    ensures begun { OnOk result (IsBegun (problem_of problem.now) true c.new at.new.machine) }
{
    let machine = begun(alloc, c, problem, true)?;
    let machine = mem::replace(&mut at.machine, machine);
    at.left = problem.steps;
    at.from = length;
    Ok(FirstEnd {
        path: length,
        run: RunEnd {
            end,
            content: machine.content,
        },
    })
}
