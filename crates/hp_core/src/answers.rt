// Answers of words put into the machine.
ghost use Rattle.std.specs.Prelude.{◌≡◌, ◌^◌, ◌<◌};
ghost use Rattle.hp_model.specs.WordOperations.{plain as plain_of};
ghost use Rattle.hp_model.specs.DataStep.{of_x, of_two, of_three};
ghost use Rattle.hp_core.specs.Machines.{control_of, data_of};

use crate::machine::Machine;
use crate::moves::{drop, drop_two, put, save};
use hp_model::Answer;

/// An answer of X.
pub fn answer_x(machine: &mut Machine, answer: Answer)
    requires { answer.pattern < 2 ^ machine.old.control.size.bits }
    ensures control { control_of machine.new ≡ control_of machine.old }
    ensures contents { data_of machine.new ≡ of_x answer (data_of machine.old) }
{
    save(&mut machine.content);
    put(&mut machine.content, answer);
}

/// An answer of Y and X, after which the stack drops.
pub fn answer_two(machine: &mut Machine, answer: Answer)
    requires { answer.pattern < 2 ^ machine.old.control.size.bits }
    ensures control { control_of machine.new ≡ control_of machine.old }
    ensures contents { data_of machine.new ≡ of_two answer (data_of machine.old) }
{
    save(&mut machine.content);
    drop(&mut machine.content);
    put(&mut machine.content, answer);
}

/// An answer of Y, Z and X, after which the stack drops twice.
pub fn answer_three(machine: &mut Machine, answer: Answer)
    requires { answer.pattern < 2 ^ machine.old.control.size.bits }
    ensures control { control_of machine.new ≡ control_of machine.old }
    ensures contents { data_of machine.new ≡ of_three answer (data_of machine.old) }
{
    save(&mut machine.content);
    drop_two(&mut machine.content);
    put(&mut machine.content, answer);
}

/// A pattern, with both flags as they were.
pub fn plain(pattern: u64) -> Answer
    ensures { result ≡ plain_of pattern }
{
    Answer {
        pattern,
        carry: None,
        range: None,
    }
}
