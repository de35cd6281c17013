// Pressed operations.
ghost use Rattle.std.specs.Prelude.{◌≡◌, ◌+◌, ◌≤◌, max};
ghost use Rattle.hp_model.specs.Operations as ops;
ghost use Rattle.hp_model.specs.Run.{line_done, at_control_line};
ghost use Rattle.hp_model.specs.Press.{pressed_operation, pressed_goto, operated_here, shown_step, without_entry, view_of_stop as view_of_stop_of};
ghost use Rattle.hp_ops.specs.Meaning.{operation, named, of_jump};
ghost use Rattle.hp_core.specs.Machines.{machine_of, KeepsLines};
ghost use Rattle.hp_core.specs.FromLines.{IsFromALine};
ghost use Rattle.hp_run.specs.Calculators.{shown_of};
ghost use Rattle.hp_run.specs.Jumped.{jumped};
ghost use Rattle.hp_run.specs.Stepping.{at_run_start};

use crate::lines::do_line;
use crate::runs::run_on;
use hp_core::{Calls, End, Machine, Stop};
use hp_keys::View;
use hp_ops::{Jump, Op, Target};

/// What the display shows after an operation.
pub fn view_of_stop(stop: Stop) -> View
    ensures { result ≡ view_of_stop_of stop }
{
    match stop {
        Stop::Ended(End::Error(number)) => View::Error(number),
        _ => View::Normal,
    }
}

/// An operation is done once, and the line number stays.
fn operate_here(machine: &mut Machine, op: Op) -> View
    requires { IsFromALine (operation op) machine.old.control.line }
    ensures shown { shown_of machine.new result
        ≡ operated_here (operation op) (machine_of machine.old) }
    ensures lines { KeepsLines machine.old machine.new }
{
    let line = machine.control.line;
    let stop = machine.step(op);
    machine.control.line = line;
    view_of_stop(stop)
}

/// To a label, sought from the line after the shown one, with no pending returns. Where it is
/// missing the line and the returns stay.
fn jump(machine: &mut Machine, target: Target) -> Stop
    ensures stop { result ≡ (pressed_goto (named target) (machine_of machine.old)).stop }
    ensures machine { machine_of machine.new ≡ jumped (named target) (machine_of machine.old) }
    ensures lines { KeepsLines machine.old machine.new }
    ensures goes_on { result ≡ Stop.Go → 1 ≤ machine.new.control.line }
{
    let line = machine.control.line;
    let past = machine.memory.lines() + 1;
    machine.control.line = (line + 1).min(past);
    let stop = machine.step(Op::Jump(Jump::Goto(target)));
    match stop {
        Stop::Go => machine.control.calls = Calls::new(),
        Stop::Ended(_) => machine.control.line = line,
    }
    stop
}

/// A pressed GSB runs from its label.
fn call(machine: &mut Machine, target: Target) -> View
    ensures shown { shown_of machine.new result
        ≡ pressed_operation (ops.gosub (named target)) (machine_of machine.old) }
    ensures lines { KeepsLines machine.old machine.new }
{
    match jump(machine, target) {
        Stop::Go => run_on(machine),
        stop => view_of_stop(stop),
    }
}

/// A pressed RTN goes to line 0.
fn press_return(machine: &mut Machine) -> View
    ensures shown { shown_of machine.new result
        ≡ pressed_operation ops.to_caller (machine_of machine.old) }
    ensures lines { KeepsLines machine.old machine.new }
{
    machine.control.calls = Calls::new();
    let _ = machine.step(Op::Jump(Jump::Return));
    View::Normal
}

/// A pressed R/S goes to the shown line, or to the first, with the pending returns.
pub fn begin_run(machine: &mut Machine)
    ensures begun { machine_of machine.new ≡ at_run_start (machine_of machine.old) }
    ensures lines { KeepsLines machine.old machine.new }
    ensures line { 1 ≤ machine.new.control.line }
{
    let _ = machine.step(Op::Jump(Jump::RunStop));
    machine.control.line = machine.control.line.max(1);
}

/// It runs from there.
fn press_run_stop(machine: &mut Machine) -> View
    ensures shown { shown_of machine.new result
        ≡ pressed_operation ops.run_stop (machine_of machine.old) }
    ensures lines { KeepsLines machine.old machine.new }
{
    begin_run(machine);
    run_on(machine)
}

/// A pressed operation that decides which line comes next.
fn press_jump(machine: &mut Machine, op: Jump) -> View
    ensures shown { shown_of machine.new result
        ≡ pressed_operation (of_jump op) (machine_of machine.old) }
    ensures lines { KeepsLines machine.old machine.new }
{
    match op {
        Jump::Goto(target) => view_of_stop(jump(machine, target)),
        Jump::Gosub(target) => call(machine, target),
        Jump::Return => press_return(machine),
        Jump::RunStop => press_run_stop(machine),
        Jump::Label(_) | Jump::Pause => operate_here(machine, Op::Jump(op)),
    }
}

/// A pressed operation.
pub fn press_operation(machine: &mut Machine, op: Op) -> View
    ensures shown { shown_of machine.new result
        ≡ pressed_operation (operation op) (machine_of machine.old) }
    ensures lines { KeepsLines machine.old machine.new }
{
    match op {
        Op::Jump(op) => press_jump(machine, op),
        _ => operate_here(machine, op),
    }
}

/// SST in run mode does the shown line, or the first where line 0 is shown.
pub fn single_step(machine: &mut Machine) -> View
    ensures shown { shown_of machine.new result
        ≡ shown_step (line_done (at_control_line (max machine.old.control.line 1)
        (without_entry (machine_of machine.old)))) }
    ensures lines { KeepsLines machine.old machine.new }
{
    machine.control.entry = None;
    machine.control.line = machine.control.line.max(1);
    view_of_stop(do_line(machine))
}
