// Commands that neither run nor edit the program.
ghost use Rattle.std.specs.Prelude.{◌≡◌, ◌≤◌, length, nat_lt, if◌then◌else◌};
ghost use Rattle.hp_model.specs.Press.{failing, normally, without_entry, without_calls, taken_back, line_before as line_before_of, next_line as next_line_of, gone_to_line};
ghost use Rattle.hp_model.specs.Run.{at_control_line};
ghost use Rattle.hp_core.specs.Machines.{control_of, machine_of, KeepsLines};
ghost use Rattle.hp_run.specs.Calculators.{moved_to, shown_of};
ghost use Rattle.hp_run.specs.Places.{IsOnLine};

use hp_core::{Calls, Machine};
use hp_edit::{before, goto_line, next};
use hp_keys::View;
use hp_words::radix;

/// Ends digit entry, and shows a view.
pub fn show(machine: &mut Machine, view: View) -> View
    ensures shown { shown_of machine.new result
        ≡ record { machine = without_entry (machine_of machine.old); view = view } }
    ensures lines { KeepsLines machine.old machine.new }
    ensures line { machine.new.control.line ≡ machine.old.control.line }
{
    machine.control.entry = None;
    view
}

/// To line 0, with no pending returns.
pub fn rewind(machine: &mut Machine) -> View
    ensures shown { shown_of machine.new result
        ≡ moved_to 0 (without_calls (machine_of machine.old)) }
    ensures lines { KeepsLines machine.old machine.new }
    ensures line { machine.new.control.line ≡ 0 }
{
    machine.control.entry = None;
    machine.control.calls = Calls::new();
    machine.control.line = 0;
    View::Normal
}

/// To the line of a number, with no pending returns, or Error 4.
pub fn go_to_line(machine: &mut Machine, number: u16) -> View
    ensures shown { shown_of machine.new result ≡ gone_to_line number (machine_of machine.old) }
    ensures lines { KeepsLines machine.old machine.new }
    ensures inside { IsOnLine machine.old → IsOnLine machine.new }
{
    machine.control.entry = None;
    match goto_line(&machine.memory, number) {
        None => View::Error(4),
        Some(line) => {
            machine.control.calls = Calls::new();
            machine.control.line = line;
            View::Normal
        }
    }
}

/// To the line before the shown one.
pub fn step_back(machine: &mut Machine) -> View
    ensures shown { shown_of machine.new result
        ≡ moved_to (line_before_of (control_of machine.old)) (machine_of machine.old) }
    ensures lines { KeepsLines machine.old machine.new }
    ensures inside { IsOnLine machine.new }
{
    machine.control.entry = None;
    machine.control.line = before(&machine.memory, machine.control.line);
    View::Normal
}

/// To the line after the shown one, as SST does in program mode.
pub fn step_forward(machine: &mut Machine) -> View
    ensures shown { shown_of machine.new result
        ≡ moved_to (next_line_of (control_of machine.old)) (machine_of machine.old) }
    ensures lines { KeepsLines machine.old machine.new }
    ensures inside { IsOnLine machine.new }
{
    machine.control.entry = None;
    machine.control.line = next(&machine.memory, machine.control.line);
    View::Normal
}

/// A line past the last becomes line 0, as program mode wants it.
pub fn enter_program(machine: &mut Machine) -> View
    ensures shown { shown_of machine.new result ≡ moved_to
        (if nat_lt (length machine.old.memory.program) machine.old.control.line then 0
        else machine.old.control.line) (machine_of machine.old) }
    ensures lines { KeepsLines machine.old machine.new }
    ensures inside { IsOnLine machine.new }
{
    machine.control.entry = None;
    if machine.control.line > machine.memory.lines() {
        machine.control.line = 0;
    }
    View::Normal
}

/// Takes the last digit of the entry back, or clears X.
pub fn take_back(machine: &mut Machine) -> View
    ensures shown { shown_of machine.new result ≡ normally (taken_back (machine_of machine.old)) }
    ensures lines { KeepsLines machine.old machine.new }
{
    let base = radix(machine.control.base);
    match machine.control.entry {
        Some(entry) if entry >= base => {
            machine.control.entry = Some(entry / base);
            machine.content.x = entry / base;
        }
        _ => {
            machine.control.entry = None;
            machine.control.lift = false;
            machine.content.x = 0;
        }
    }
    View::Normal
}
