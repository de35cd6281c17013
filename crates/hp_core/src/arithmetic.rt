// The operations of arithmetic on Y and X: what they ask, and what they leave in the stack.
ghost use Rattle.std.specs.Prelude.{◌≡◌, ◌^◌, ◌<◌, [], ◌∷◌, pos, int_lt, is_err, IfOk};
ghost use Rattle.hp_model.specs.Words.{value};
ghost use Rattle.hp_model.specs.WordOperations.{root_of};
ghost use Rattle.hp_model.specs.Operations as ops;
ghost use Rattle.hp_ops.specs.Meaning.{of_arithmetic};
ghost use Rattle.hp_core.specs.Machines.{Changes};

use crate::answers::{answer_two, answer_x};
use crate::given::Given;
use crate::machine::Machine;
use crate::moves::put;
use hp_arith::{abs, add, chs, div, mul, rmd, root, sub};
use hp_model::Answer;
use hp_ops::Arithmetic;
use hp_words::{Error0, Word};

/// The quotient. Whether X is zero, which is Error 0.
fn divide(machine: &mut Machine) -> bool
    ensures { Changes machine.old machine.new ops.divide (result ∷ []) }
{
    match div(machine.y_word(), machine.x_word()) {
        Err(_) => true,
        Ok(answer) => {
            answer_two(machine, answer);
            false
        }
    }
}

/// The remainder. Whether X is zero, which is Error 0.
fn remainder(machine: &mut Machine) -> bool
    ensures { Changes machine.old machine.new ops.remainder (result ∷ []) }
{
    match rmd(machine.y_word(), machine.x_word()) {
        Err(_) => true,
        Ok(answer) => {
            answer_two(machine, answer);
            false
        }
    }
}

/// The square root, and whether there is one, as the question is asked. Only a proof
/// wants it apart.
fn real_root(x: Word) -> Result<Answer, Error0>
    ensures asked { int_lt (value x.size.bits x.mode x.pattern) (pos 0) ≡ is_err result }
    ensures value { IfOk result (λ answer. answer ≡ root_of x.size.bits x.mode x.pattern) }
    ensures bound { IfOk result (λ answer. answer.pattern < 2 ^ x.size.bits) }
{
    match root(x) {
        Ok(answer) => Ok(answer),
        Err(error) => Err(error),
    }
}

/// The square root. Whether X is negative, which is Error 0.
fn square_root(machine: &mut Machine) -> bool
    ensures { Changes machine.old machine.new ops.square_root (result ∷ []) }
{
    let x = machine.x_word();
    match real_root(x) {
        Err(_) => true,
        Ok(answer) => {
            answer_x(machine, answer);
            false
        }
    }
}

/// X with its sign changed, and LAST X as it was.
fn change_sign(machine: &mut Machine)
    ensures { Changes machine.old machine.new ops.change_sign [] }
{
    let answer = chs(machine.x_word());
    put(&mut machine.content, answer);
}

/// An operation of arithmetic.
#[inline(never)]
pub fn change(machine: &mut Machine, op: Arithmetic, given: &mut Given)
    requires { given.old.items ≡ [] }
    ensures { Changes machine.old machine.new (of_arithmetic op) given.new.items }
{
    let x = machine.x_word();
    let y = machine.y_word();
    match op {
        Arithmetic::Add => answer_two(machine, add(y, x)),
        Arithmetic::Subtract => answer_two(machine, sub(y, x)),
        Arithmetic::Multiply => answer_two(machine, mul(y, x)),
        Arithmetic::Divide => given.push(divide(machine)),
        Arithmetic::Remainder => given.push(remainder(machine)),
        Arithmetic::ChangeSign => change_sign(machine),
        Arithmetic::Absolute => answer_x(machine, abs(x)),
        Arithmetic::SquareRoot => given.push(square_root(machine)),
    }
}
