// Counting in the index register.
ghost use Rattle.std.specs.Prelude.{◌≡◌, [], ◌∷◌};
ghost use Rattle.hp_ops.specs.Meaning.{of_loop};
ghost use Rattle.hp_core.specs.Machines.{Changes};

use crate::machine::Machine;
use crate::words::one;
use hp_ops::Loop;
use hp_words::Word;

/// One less or one more in the index register, as a word. Whether its value becomes 0.
#[inline(never)]
pub fn count(machine: &mut Machine, op: Loop) -> bool
    ensures { Changes machine.old machine.new (of_loop op) (result ∷ []) }
{
    let index = machine.index_word();
    let one = one(machine);
    let answer = match op {
        Loop::Decrement => hp_arith::sub(index, one),
        Loop::Increment => hp_arith::add(index, one),
    };
    machine.content.i = answer.pattern;
    Word::new(machine.control.size, machine.control.mode, answer.pattern).value() == 0
}
