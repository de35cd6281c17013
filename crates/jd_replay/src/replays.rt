// The two runs from a start: a machine is made of each routine with the start in it, run, and its
// final state kept.
ghost use Rattle.std.specs.Prelude.{◌≡◌, ◌≤◌, ◌*◌, ◌^◌, ◌<◌, true, length};
ghost use Rattle.hp_core.specs.Machines.{data_of};
ghost use Rattle.jd_model.specs.Problems.{allows, blocks};
ghost use Rattle.jd_model.specs.Seen.{seen};
ghost use Rattle.jd_problem.specs.Problems.{problem_of};
ghost use Rattle.jd_start.specs.Starts.{start_data};
ghost use Rattle.jd_replay.specs.Seen.{seen_of};

use crate::seen::Seen;
use hp_core::Machine;
use hp_nibbles::Memory;
use hp_run::{RunEnd, run};
use jd_problem::{Problem, Routine};
use jd_start::{Nibbles, Start, register_nibbles};

/// The register nibbles of a memory.
fn register_nibbles_of(memory: &Memory) -> Nibbles
    ensures { result ≡ memory.now.nibbles }
{
    let mut nibbles = Nibbles::new();
    for j in 0..register_nibbles(memory.extent(), memory.blocks()) {
        nibbles.push(memory.nibble(j));
    }
    nibbles
}

/// The final state of a machine.
fn final_state(machine: &Machine) -> Start
    ensures { start_data result ≡ data_of machine.now }
{
    Start {
        content: machine.content,
        nibbles: register_nibbles_of(&machine.memory),
    }
}

/// What is seen of a routine's run from a start.
fn seen_of_routine(problem: &Problem, routine: &Routine, start: &Start) -> Seen
    requires allowed { allows (problem_of problem.now) (start_data start.now) ≡ true }
    requires room { length routine.now ≤ 7 * blocks (problem_of problem.now) }
    ensures { seen_of result ≡ seen (problem_of problem.now) routine.now (start_data start.now) }
{
    let memory = Memory::with(
        problem.memory,
        routine.codes(),
        problem.blocks(),
        start.nibbles.as_slice(),
    );
    let mut machine = Machine::begin(
        problem.size,
        problem.mode,
        problem.base,
        memory,
        start.content,
    );
    match run(&mut machine, u32::from(problem.steps)) {
        RunEnd::Late => Seen::Late,
        RunEnd::Ended(end) => Seen::Ended(end, final_state(&machine)),
    }
}

/// Runs both routines from a start in the problem's memory, each for at most the problem's steps.
pub fn replay(problem: &Problem, start: &Start) -> (Seen, Seen)
    requires { allows (problem_of problem.now) (start_data start.now) ≡ true }
    ensures first { seen_of result.0
        ≡ seen (problem_of problem.now) problem.now.first (start_data start.now) }
    ensures second { seen_of result.1
        ≡ seen (problem_of problem.now) problem.now.second (start_data start.now) }
{
    (
        seen_of_routine(problem, &problem.first, start),
        seen_of_routine(problem, &problem.second, start),
    )
}
