// Runs of the program.
ghost use Rattle.std.specs.Prelude.{◌≡◌, ◌≤◌};
ghost use Rattle.hp_model.specs.State.{Machine as MachineState};
ghost use Rattle.hp_model.specs.Run.{run as run_of};
ghost use Rattle.hp_model.specs.Press.{shown_run, lines_per_key};
ghost use Rattle.hp_core.specs.Machines.{machine_of, KeepsLines};
ghost use Rattle.hp_run.specs.Ends.{end_of};
ghost use Rattle.hp_run.specs.Calculators.{shown_of};

use crate::lines::do_line;
use hp_core::{End, Machine, Stop};
use hp_keys::View;

/// How a run came out: it ended by itself, or its bound of lines was done without an end.
#[derive(Clone, Copy, Debug, PartialEq, Eq)]
pub enum RunEnd {
    Ended(End),
    Late,
}

/// The lines that one key may do. After as many without an end a run is late, and the display shows Error 8.
pub const LINES_PER_KEY: u32 = 100_000;

/// Does lines from the line number on, at most `bound` of them. Each RTN past the last line is one
/// too.
pub fn run(machine: &mut Machine, bound: u32) -> RunEnd
    requires { 1 ≤ machine.old.control.line }
    ensures run { run_of bound (machine_of machine.old) ≡ (end_of result, machine_of machine.new) }
    ensures lines { KeepsLines machine.old machine.new }
{
    for _ in 0..bound {
        match do_line(machine) {
            Stop::Go => {}
            Stop::Ended(end) => return RunEnd::Ended(end),
        }
    }
    RunEnd::Late
}

/// What the display shows after a run.
fn view_of_run(end: RunEnd) -> View
    ensures { (m : MachineState) → shown_run (end_of end, m)
        ≡ record { machine = m; view = result } }
{
    match end {
        RunEnd::Ended(End::Error(number)) => View::Error(number),
        RunEnd::Ended(_) => View::Normal,
        RunEnd::Late => View::Error(8),
    }
}

/// A pressed run, from the line number on. One that does not end by itself ends with Error 8.
pub fn run_on(machine: &mut Machine) -> View
    requires { 1 ≤ machine.old.control.line }
    ensures shown { shown_run (run_of lines_per_key (machine_of machine.old))
        ≡ shown_of machine.new result }
    ensures lines { KeepsLines machine.old machine.new }
{
    view_of_run(run(machine, LINES_PER_KEY))
}
