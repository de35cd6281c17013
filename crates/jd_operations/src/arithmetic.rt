//! Arithmetic on Y and X, or on X alone. Circuits of `jd_rows` and `jd_products` make the answer,
//! and the operation says whether X is saved and the stack drops before the answer goes to X.
ghost use Rattle.std.specs.Prelude.{◌≡◌, ℕ, ◌+◌, ◌-◌, ◌^◌, ◌<◌, ◌≤◌, Bool, IfOk, List, length};
ghost use Rattle.hp_ops.specs.Meaning.{of_arithmetic};
ghost use Rattle.jd_circuit.specs.Net.{Grows, Solves, variables};
ghost use Rattle.jd_vectors.specs.Number.{AreOf, number};
ghost use Rattle.jd_rows.specs.Answers.{AnswerFits, answer_on};
ghost use Rattle.jd_content.specs.Meaning.{Fits, Puts};
ghost use Rattle.jd_operations.specs.Answers.{HasDivisor, arithmetic_of, put_arithmetic};
ghost use Rattle.jd_operations.specs.Done.{IsDone};

use hp_control::Control;
use hp_ops::Arithmetic;
use hp_words::Mode;
use jd_circuit::{Circuit, NoMemory, Rewrite};
use jd_content::{SymContent, answer_two, answer_x, put_answer};
use jd_products::{product, quotient, remainder, square_root};
use jd_rows::{SymAnswer, absolute, difference, negation, sum};
use jd_vectors::Lits;

/// The answer.
fn answer<W: Rewrite>(
    c: &mut Circuit<'_, W>,
    mode: Mode,
    op: Arithmetic,
    y: &Lits,
    x: &Lits,
) -> Result<SymAnswer, NoMemory>
    requires some { 1 ≤ length x.now }
    requires word { length x.now ≤ 64 }
    requires length { length y.now ≡ length x.now }
    requires first { AreOf c.old y.now }
    requires second { AreOf c.old x.now }
    requires room { length c.old.gates < 2 ^ 30 - 2 ^ 21 }
    ensures fits { IfOk result (AnswerFits (variables c.new) (length x.now)) }
    ensures meaning { IfOk result (λ a. (val : ℕ → Bool) → Solves c.new val
        → HasDivisor op (length x.now) mode (number val x.now)
        → answer_on val a
        ≡ arithmetic_of op (length x.now) mode (number val y.now) (number val x.now)) }
    ensures grows { Grows c.old c.new }
    ensures more { length c.new.gates ≤ length c.old.gates + 2 ^ 16 }
{
    match op {
        Arithmetic::Add => sum(c, mode, y, x),
        Arithmetic::Subtract => difference(c, mode, y, x),
        Arithmetic::Multiply => product(c, mode, y, x),
        Arithmetic::Divide => quotient(c, mode, y, x),
        Arithmetic::Remainder => remainder(c, mode, y, x),
        Arithmetic::ChangeSign => negation(c, mode, x),
        Arithmetic::Absolute => absolute(c, mode, x),
        Arithmetic::SquareRoot => square_root(c, mode, x),
    }
}

/// Puts the answer where the operation puts it.
fn put(content: &mut SymContent, op: Arithmetic, answer: SymAnswer)
    ensures { Puts (put_arithmetic op) answer content.old content.new }
{
    match op {
        Arithmetic::ChangeSign => put_answer(content, answer),
        Arithmetic::Absolute => answer_x(content, answer),
        Arithmetic::SquareRoot => answer_x(content, answer),
        Arithmetic::Add => answer_two(content, answer),
        Arithmetic::Subtract => answer_two(content, answer),
        Arithmetic::Multiply => answer_two(content, answer),
        Arithmetic::Divide => answer_two(content, answer),
        Arithmetic::Remainder => answer_two(content, answer),
    }
}

/// Arithmetic, done to the content.
pub fn change_arithmetic<W: Rewrite>(
    c: &mut Circuit<'_, W>,
    content: &mut SymContent,
    control: &Control,
    op: Arithmetic,
) -> Result<(), NoMemory>
    requires fits { Fits (variables c.old) control.now.size.bits content.old }
    requires room { length c.old.gates < 2 ^ 30 - 2 ^ 21 }
    ensures done { (given : List Bool) → IfOk result (λ _. IsDone c.old c.new control.now
        (of_arithmetic op) given control.now.size.bits content.old content.new) }
    ensures grows { Grows c.old c.new }
    ensures more { length c.new.gates ≤ length c.old.gates + 2 ^ 17 }
{
    let answer = answer(c, control.mode, op, &content.y, &content.x)?;
    put(content, op, answer);
    Ok(())
}
