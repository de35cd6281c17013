// Labels that the index register names.
ghost use Rattle.std.specs.Prelude.{◌≡◌, []};
ghost use Rattle.hp_ops.specs.Meaning.{of_jump};
ghost use Rattle.hp_model.specs.Questions.{answers};
ghost use Rattle.hp_core.specs.Machines.{control_of, data_of};

use crate::given::{Given, spell};
use crate::machine::Machine;
use hp_ops::{Jump, Target};

/// What a jump asks: where the label is in the index register, whether it is above 15, and else its
/// four bits.
pub fn answer(machine: &Machine, op: Jump, given: &mut Given)
    requires { given.old.items ≡ [] }
    ensures { given.new.items
        ≡ answers (control_of machine.now) (of_jump op) (data_of machine.now) }
{
    match op {
        Jump::Goto(Target::Index) | Jump::Gosub(Target::Index) => {
            if machine.content.i > 15 {
                given.push(true);
            } else {
                spell(given, machine.content.i, 4);
            }
        }
        _ => {}
    }
}
