// One line of the program done.
ghost use Rattle.std.specs.Prelude.{◌≡◌, ◌+◌, ◌≤◌, length};
ghost use Rattle.hp_model.specs.Run.{line_done, next_operation};
ghost use Rattle.hp_ops.specs.Meaning.{operation};
ghost use Rattle.hp_core.specs.Machines.{control_of, machine_of, step_of, KeepsLines};

use hp_core::{End, Machine, Stop};
use hp_ops::{Jump, Op};

/// The operation of the line to be done next. Past the last line stands an RTN.
#[inline(always)]
fn next_op(machine: &Machine) -> Op
    requires { 1 ≤ machine.now.control.line }
    ensures { operation result ≡ next_operation (control_of machine.now) }
{
    let line = machine.control.line;
    if line > machine.memory.lines() {
        Op::Jump(Jump::Return)
    } else {
        machine.op_at(line)
    }
}

/// Does the next line. Its operation finds the number of the line after it, and an error leaves its
/// own.
#[inline(always)]
pub fn do_line(machine: &mut Machine) -> Stop
    requires { 1 ≤ machine.old.control.line }
    ensures done { line_done (machine_of machine.old) ≡ step_of machine.new result }
    ensures lines { KeepsLines machine.old machine.new }
    ensures goes_on { result ≡ Stop.Go → 1 ≤ machine.new.control.line }
{
    let line = machine.control.line;
    let op = next_op(machine);
    let past = machine.memory.lines() + 1;
    machine.control.line = (line + 1).min(past);
    let stop = machine.step(op);
    if let Stop::Ended(End::Error(_)) = stop {
        machine.control.line = line;
    }
    stop
}
