// Edits of the program, which clear the pending returns.
ghost use Rattle.std.specs.Prelude.{◌≡◌, ◌≤◌, length, []};
ghost use Rattle.hp_model.specs.Press.{inserted, deleted, reprogrammed, without_entry, normally};
ghost use Rattle.hp_ops.specs.Meaning.{operation};
ghost use Rattle.hp_core.specs.Machines.{machine_of};
ghost use Rattle.hp_run.specs.Calculators.{shown_of};
ghost use Rattle.hp_run.specs.Places.{HasOwnBlocks, IsOnLine};

use hp_core::{Calls, Machine};
use hp_edit::Full;
use hp_keys::View;
use hp_ops::Op;

/// Puts an operation after the shown line, and shows it. Error 4 where the program is full.
pub fn insert(machine: &mut Machine, op: Op) -> View
    requires blocks { HasOwnBlocks machine.old.memory }
    requires line { IsOnLine machine.old }
    ensures shown { shown_of machine.new result ≡ inserted (operation op) (machine_of machine.old) }
    ensures blocks { HasOwnBlocks machine.new.memory }
    ensures inside { IsOnLine machine.new }
{
    match hp_edit::insert(&mut machine.memory, machine.control.line, op) {
        Err(Full) => View::Error(4),
        Ok(line) => {
            machine.control.line = line;
            machine.control.calls = Calls::new();
            View::Normal
        }
    }
}

/// Takes the shown line out, and shows the one before it. At line 0 nothing is done.
pub fn delete(machine: &mut Machine) -> View
    requires blocks { HasOwnBlocks machine.old.memory }
    requires line { IsOnLine machine.old }
    ensures shown { shown_of machine.new result ≡ normally (deleted (machine_of machine.old)) }
    ensures blocks { HasOwnBlocks machine.new.memory }
    ensures inside { IsOnLine machine.new }
{
    let line = machine.control.line;
    if line > 0 {
        machine.control.line = hp_edit::delete(&mut machine.memory, line);
        machine.control.calls = Calls::new();
    }
    View::Normal
}

/// Takes all lines out.
pub fn clear_program(machine: &mut Machine) -> View
    ensures shown { shown_of machine.new result
        ≡ normally (reprogrammed [] 0 (without_entry (machine_of machine.old))) }
    ensures blocks { HasOwnBlocks machine.new.memory }
    ensures inside { IsOnLine machine.new }
{
    machine.control.entry = None;
    machine.control.line = 0;
    machine.control.calls = Calls::new();
    machine.memory.clear_program();
    View::Normal
}
