//! The double functions, for which two words of the stack make one number. `jd_products` has their
//! circuits; a product goes to X and Y and clears the range flag, while a quotient or remainder
//! drops the stack twice.
ghost use Rattle.std.specs.Prelude.{◌≡◌, ℕ, ◌+◌, ◌-◌, ◌*◌, ◌^◌, ◌<◌, ◌≤◌, Bool, IfOk, List, length};
ghost use Rattle.hp_model.specs.Operations as ops;
ghost use Rattle.hp_model.specs.WordOperations.{double_quotient_of, double_remainder_of};
ghost use Rattle.hp_ops.specs.Meaning.{of_double};
ghost use Rattle.jd_circuit.specs.Net.{Grows, variables};
ghost use Rattle.jd_content.specs.Meaning.{Fits};
ghost use Rattle.jd_operations.specs.Done.{IsDone};

use hp_control::Control;
use hp_ops::Double;
use jd_circuit::{Circuit, Lit, NoMemory, Rewrite};
use jd_content::{SymContent, answer_three, save};
use jd_products::{double_divide, double_multiply, double_remainder};

/// The product, whose upper word goes to X and whose lower word goes to Y.
fn change_multiply<W: Rewrite>(
    c: &mut Circuit<'_, W>,
    content: &mut SymContent,
    control: &Control,
) -> Result<(), NoMemory>
    requires fits { Fits (variables c.old) control.now.size.bits content.old }
    requires room { length c.old.gates < 2 ^ 30 - 2 ^ 21 }
    ensures done { (given : List Bool) → IfOk result (λ _. IsDone c.old c.new control.now
        ops.double_multiply given control.now.size.bits content.old content.new) }
    ensures grows { Grows c.old c.new }
    ensures more { length c.new.gates ≤ length c.old.gates + 2 ^ 17 }
{
    let (upper, lower) = double_multiply(c, control.mode, &content.y, &content.x)?;
    save(content);
    content.x = upper;
    content.y = lower;
    content.flags[5] = Lit::Const(false);
    Ok(())
}

/// The quotient of the double word Y, Z by X.
fn change_divide<W: Rewrite>(
    c: &mut Circuit<'_, W>,
    content: &mut SymContent,
    control: &Control,
) -> Result<(), NoMemory>
    requires fits { Fits (variables c.old) control.now.size.bits content.old }
    requires room { length c.old.gates < 2 ^ 30 - 2 ^ 21 }
    ensures done { (given : List Bool) → IfOk result (λ _. IsDone c.old c.new control.now
        ops.double_divide given control.now.size.bits content.old content.new) }
    ensures grows { Grows c.old c.new }
    ensures more { length c.new.gates ≤ length c.old.gates + 2 ^ 17 }
{
    let answer = double_divide(c, control.mode, &content.y, &content.z, &content.x)?;
    answer_three(content, answer);
    Ok(())
}

/// What that quotient leaves.
fn change_remainder<W: Rewrite>(
    c: &mut Circuit<'_, W>,
    content: &mut SymContent,
    control: &Control,
) -> Result<(), NoMemory>
    requires fits { Fits (variables c.old) control.now.size.bits content.old }
    requires room { length c.old.gates < 2 ^ 30 - 2 ^ 21 }
    ensures done { (given : List Bool) → IfOk result (λ _. IsDone c.old c.new control.now
        ops.double_remainder given control.now.size.bits content.old content.new) }
    ensures grows { Grows c.old c.new }
    ensures more { length c.new.gates ≤ length c.old.gates + 2 ^ 17 }
{
    let answer = double_remainder(c, control.mode, &content.y, &content.z, &content.x)?;
    answer_three(content, answer);
    Ok(())
}

/// A double function, done to the content.
pub fn change_double<W: Rewrite>(
    c: &mut Circuit<'_, W>,
    content: &mut SymContent,
    control: &Control,
    op: Double,
) -> Result<(), NoMemory>
    requires fits { Fits (variables c.old) control.now.size.bits content.old }
    requires room { length c.old.gates < 2 ^ 30 - 2 ^ 21 }
    ensures done { (given : List Bool) → IfOk result (λ _. IsDone c.old c.new control.now
        (of_double op) given control.now.size.bits content.old content.new) }
    ensures grows { Grows c.old c.new }
    ensures more { length c.new.gates ≤ length c.old.gates + 2 ^ 17 }
{
    match op {
        Double::Multiply => change_multiply(c, content, control),
        Double::Divide => change_divide(c, content, control),
        Double::Remainder => change_remainder(c, content, control),
    }
}
