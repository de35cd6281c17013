// Digit entry.
ghost use Rattle.std.specs.Prelude.{◌≡◌, []};
ghost use Rattle.hp_model.specs.Operations as ops;
ghost use Rattle.hp_core.specs.Machines.{Changes};

use crate::machine::Machine;
use crate::moves::push;
use hp_control::new_entry;
use hp_ops::HexDigit;

/// A digit, unless it is ignored. The first of a number lifts the stack where that is enabled.
#[inline(never)]
pub fn enter(machine: &mut Machine, digit: HexDigit)
    ensures { Changes machine.old machine.new (ops.digit digit.value) [] }
{
    match new_entry(&machine.control, digit) {
        None => {}
        Some(number) => {
            let lifts = machine.control.entry.is_none() && machine.control.lift;
            push(&mut machine.content, lifts, number);
        }
    }
}
