// The tests of X against Y or zero.
ghost use Rattle.std.specs.Prelude.{◌≡◌};
ghost use Rattle.hp_model.specs.Words.{value};
ghost use Rattle.hp_model.specs.Questions.{holds_of_test};
ghost use Rattle.hp_ops.specs.Meaning.{condition};

use crate::machine::Machine;
use hp_ops::Test;

/// Whether the condition of a test holds.
pub fn test_holds(machine: &Machine, op: Test) -> bool
    ensures { result ≡ holds_of_test (condition op)
        (value machine.now.control.size.bits machine.now.control.mode machine.now.content.x)
        (value machine.now.control.size.bits machine.now.control.mode machine.now.content.y) }
{
    let x = machine.x_word().value();
    let y = machine.y_word().value();
    match op {
        Test::AtMostY => x <= y,
        Test::Negative => x < 0,
        Test::AboveY => x > y,
        Test::Positive => x > 0,
        Test::NotY => x != y,
        Test::NotZero => x != 0,
        Test::EqualY => x == y,
        Test::Zero => x == 0,
    }
}
