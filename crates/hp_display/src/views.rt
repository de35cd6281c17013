// The display.
ghost use Rattle.std.specs.Prelude.{◌≡◌, ◌<◌, ◌≤◌, length, IsTrue};
ghost use Rattle.hp_model.specs.Keys.{Prefix};
ghost use Rattle.hp_model.specs.Display.{display as display_text};
ghost use Rattle.hp_core.specs.Machines.{machine_of};
ghost use Rattle.hp_keys.specs.Prefixes.{shift_of};
ghost use Rattle.arrayvec.specs.ArrayString.{array_string_len};

use crate::texts::{error_text, mem_line, program_text, run_text, status};
use arrayvec::ArrayString;
use hp_core::Machine;
use hp_keys::{Shift, View};

/// The text of the display for a machine in run mode or, where `program` is true, in program mode.
pub fn display(machine: &Machine, shift: Shift, program: bool, view: View) -> ArrayString<32>
    requires { IsTrue program → machine.now.control.line ≤ length machine.now.memory.program }
    ensures text { (prefix : Prefix) → shift_of prefix ≡ shift
        → result.bytes ≡ display_text (record {
          machine = machine_of machine.now;
          prefix = prefix;
          programming = program;
          view = view;
        }) }
    ensures room { array_string_len result < 32 }
{
    match view {
        View::Normal if program => program_text(machine, shift),
        View::Normal => run_text(machine, shift, machine.control.base, machine.control.window),
        View::Show(base) => run_text(machine, shift, base, 0),
        View::Status => status(machine),
        View::Mem => mem_line(machine),
        View::Error(number) => error_text(number),
    }
}
