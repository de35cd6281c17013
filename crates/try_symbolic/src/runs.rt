//! A problem without free parts runs on literals and on numbers at once, each line on both, up to
//! the first difference. `rows` and `operations` make the problems; where no line differs, memory
//! is compared last.
ghost use Rattle.std.specs.Prelude.{◌≡◌, ◌-◌, ◌*◌, ◌≤◌, ◌^◌, ◌<◌, IfOk, length};
ghost use Rattle.jd_model.specs.Problems.{free_bits};
ghost use Rattle.jd_problem.specs.Problems.{problem_of};
ghost use Rattle.jd_symbolic.specs.Machine.{Stands};

use crate::comparisons::{Difference, of_line, of_nibbles};
use crate::failures::Failure;
use crate::literals::do_line;
use hp_core::{Machine, Stop};
use hp_nibbles::Memory;
use hp_run::{RunEnd, run};
use hp_words::Content;
use jd_circuit::{Circuit, NoRules, Rewrite};
use jd_problem::{Bits, Problem, WordSize, read_problem};
use jd_start::{Nibbles, register_nibbles};
use jd_symbolic::SymMachine;
use std::alloc::Global;

/// The most lines of a run.
const MOST_LINES: u16 = 24;

/// What came of a run.
#[derive(Drop)]
pub struct Ran {
    /// The first difference, if there is one.
    pub difference: Option<Difference>,
    pub machine: SymMachine,
    pub stop: Stop,
    /// The gates at its end.
    pub gates: usize,
}

/// A problem of a text.
pub fn problem_of_text(text: &str) -> Result<Problem, Failure> {
    let bytes = text.as_bytes();
    if bytes.len() > 100_000 {
        return Err(Failure::Unreadable);
    }
    match read_problem(bytes) {
        Ok((problem, _)) => Ok(problem),
        Err(_) => Err(Failure::Unreadable),
    }
}

/// Words within a size, as they are already.
fn within(size: WordSize, content: Content) -> Content
    ensures x { result.x ≤ 2 ^ size.bits - 1 }
    ensures y { result.y ≤ 2 ^ size.bits - 1 }
    ensures z { result.z ≤ 2 ^ size.bits - 1 }
    ensures t { result.t ≤ 2 ^ size.bits - 1 }
    ensures l { result.l ≤ 2 ^ size.bits - 1 }
{
    let most = size.mask();
    let flags = content.flags;
    Content {
        x: content.x.min(most),
        y: content.y.min(most),
        z: content.z.min(most),
        t: content.t.min(most),
        l: content.l.min(most),
        i: content.i,
        flags,
    }
}

/// A memory with a problem's first routine.
fn memory_of(problem: &Problem, nibbles: &Nibbles) -> Result<Memory, Failure> {
    let blocks = problem.blocks();
    let codes = problem.first.codes();
    if 7 * u16::from(blocks) > problem.memory.bytes() || codes.len() > 7 * blocks as usize {
        return Err(Failure::Unfitting);
    }
    let nibbles = nibbles.as_slice();
    if nibbles.len() != register_nibbles(problem.memory, blocks) as usize {
        return Err(Failure::Unfitting);
    }
    Ok(Memory::with(problem.memory, codes, blocks, nibbles))
}

/// The machine of numbers with which a problem's first run begins.
fn stepped_machine(problem: &Problem) -> Result<Machine, Failure> {
    if problem.free_bits() != 0 {
        return Err(Failure::FreeStart);
    }
    let start = problem.start_of(&Bits::new());
    let memory = memory_of(problem, &start.nibbles)?;
    Ok(Machine::begin(
        problem.size,
        problem.mode,
        problem.base,
        memory,
        within(problem.size, start.content),
    ))
}

/// Does the next line of a machine of numbers.
fn step_line(stepped: &mut Machine) -> Result<Stop, Failure> {
    if stepped.control.line == 0 {
        return Err(Failure::NoLine);
    }
    match run(stepped, 1) {
        RunEnd::Late => Ok(Stop::Go),
        RunEnd::Ended(end) => Ok(Stop::Ended(end)),
    }
}

/// Does the lines of a run, up to its end or to the first difference.
fn go<W: Rewrite>(
    machine: &mut SymMachine,
    c: &mut Circuit<'_, W>,
    stepped: &mut Machine,
    told: &[bool],
) -> Result<(Stop, Option<Difference>), Failure>
    requires { Stands c.old machine.old }
    ensures { IfOk result (λ _. Stands c.new machine.new) }
{
    for _line in 0..MOST_LINES {
        let on_literals = do_line(machine, c, told)?;
        let stop = step_line(stepped)?;
        let found = of_line(stepped, stop, machine, on_literals);
        if found.is_some() || stop != Stop::Go {
            return Ok((stop, found));
        }
    }
    Ok((Stop::Go, None))
}

/// The first run of a problem without free parts, on both machines.
pub fn run_both(alloc: Global, problem: &Problem) -> Result<Ran, Failure> {
    let mut c = Circuit::new(alloc, &NoRules, problem.free_bits())?;
    let mut machine = SymMachine::begin(alloc, &mut c, problem, false)?;
    let mut stepped = stepped_machine(problem)?;
    let (stop, found) = go(&mut machine, &mut c, &mut stepped, &[])?;
    let difference = match found {
        Some(found) => Some(found),
        None => of_nibbles(&stepped, &machine),
    };
    Ok(Ran {
        difference,
        machine,
        stop,
        gates: c.mark().gates,
    })
}
