// The double functions.
ghost use Rattle.std.specs.Prelude.{◌≡◌, ◌^◌, ◌<◌, []};
ghost use Rattle.hp_model.specs.WordOperations.{double_product};
ghost use Rattle.hp_model.specs.Operations as ops;
ghost use Rattle.hp_ops.specs.Meaning.{of_double};
ghost use Rattle.hp_core.specs.Machines.{Changes};

use crate::answers::answer_three;
use crate::given::Given;
use crate::machine::Machine;
use crate::moves::save;
use hp_double::{dbl_div, dbl_mul, dbl_rmd};
use hp_ops::Double;

/// The product's upper and lower word.
fn product(machine: &Machine) -> (u64, u64)
    ensures value { result ≡ double_product
        machine.now.control.size.bits machine.now.control.mode
        machine.now.content.y machine.now.content.x }
    ensures upper { result.0 < 2 ^ machine.now.control.size.bits }
    ensures lower { result.1 < 2 ^ machine.now.control.size.bits }
{
    dbl_mul(machine.y_word(), machine.x_word())
}

/// The product's upper word to X and its lower one to Y.
fn multiply(machine: &mut Machine)
    ensures { Changes machine.old machine.new ops.double_multiply [] }
{
    let (upper, lower) = product(machine);
    save(&mut machine.content);
    machine.content.x = upper;
    machine.content.y = lower;
    machine.content.flags[5] = false;
}

/// The quotient of Y and Z by X. Whether X is zero, and else whether it is too great, both Error 0.
fn divide(machine: &mut Machine, given: &mut Given)
    requires { given.old.items ≡ [] }
    ensures { Changes machine.old machine.new ops.double_divide given.new.items }
{
    if machine.x_word().magnitude() == 0 {
        given.push(true);
        return;
    }
    given.push(false);
    match dbl_div(machine.y_word(), machine.z_word(), machine.x_word()) {
        Err(_) => given.push(true),
        Ok(answer) => {
            given.push(false);
            answer_three(machine, answer);
        }
    }
}

/// The remainder of Y and Z by X, where the same is asked.
fn remainder(machine: &mut Machine, given: &mut Given)
    requires { given.old.items ≡ [] }
    ensures { Changes machine.old machine.new ops.double_remainder given.new.items }
{
    if machine.x_word().magnitude() == 0 {
        given.push(true);
        return;
    }
    given.push(false);
    match dbl_rmd(machine.y_word(), machine.z_word(), machine.x_word()) {
        Err(_) => given.push(true),
        Ok(answer) => {
            given.push(false);
            answer_three(machine, answer);
        }
    }
}

/// A double function.
#[inline(never)]
pub fn change(machine: &mut Machine, op: Double, given: &mut Given)
    requires { given.old.items ≡ [] }
    ensures { Changes machine.old machine.new (of_double op) given.new.items }
{
    match op {
        Double::Multiply => multiply(machine),
        Double::Divide => divide(machine, given),
        Double::Remainder => remainder(machine, given),
    }
}
