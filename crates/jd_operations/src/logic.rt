//! Logic on X, or on Y and X, bit by bit. Inverting a word needs no gate, since each literal has
//! its opposite; joining two needs at most one gate for each bit. The answer goes to X.
ghost use Rattle.std.specs.Prelude.{◌≡◌, ℕ, ◌+◌, ◌-◌, ◌^◌, ◌<◌, ◌≤◌, Bool, IfOk, List, length};
ghost use Rattle.hp_model.specs.WordOperations.{plain};
ghost use Rattle.hp_ops.specs.Meaning.{of_logic};
ghost use Rattle.jd_circuit.specs.Net.{Grows, Solves, variables};
ghost use Rattle.jd_vectors.specs.Number.{AreOf, Inside, bitwise_of, number};
ghost use Rattle.jd_rows.specs.Answers.{AnswerFits, answer_on};
ghost use Rattle.jd_content.specs.Meaning.{Fits, Puts};
ghost use Rattle.jd_operations.specs.Answers.{logic_of, put_logic};
ghost use Rattle.jd_operations.specs.Done.{IsDone};

use hp_control::Control;
use hp_ops::Logic;
use jd_circuit::{Circuit, NoMemory, Rewrite};
use jd_content::{SymContent, answer_two, answer_x};
use jd_rows::SymAnswer;
use jd_vectors::{Bitwise, Lits, join_lits, not_lits};

/// The other bits.
fn inverted(x: &Lits) -> SymAnswer
    ensures fits { (n : ℕ) → Inside n x.now → AnswerFits n (length x.now) result }
    ensures meaning { (val : ℕ → Bool)
        → answer_on val result ≡ plain (2 ^ length x.now - 1 - number val x.now) }
{
    SymAnswer::plain(not_lits(x))
}

/// Two words joined bit by bit.
fn joined<W: Rewrite>(
    c: &mut Circuit<'_, W>,
    kind: Bitwise,
    y: &Lits,
    x: &Lits,
) -> Result<SymAnswer, NoMemory>
    requires length { length y.now ≡ length x.now }
    requires first { AreOf c.old y.now }
    requires second { AreOf c.old x.now }
    requires room { length c.old.gates + length y.now < 2 ^ 30 }
    ensures fits { IfOk result (AnswerFits (variables c.new) (length x.now)) }
    ensures meaning { IfOk result (λ a. (val : ℕ → Bool) → Solves c.new val
        → answer_on val a ≡ plain (bitwise_of kind (number val y.now) (number val x.now))) }
    ensures grows { Grows c.old c.new }
    ensures more { length c.new.gates ≤ length c.old.gates + length y.now }
{
    let pattern = join_lits(c, kind, y, x)?;
    Ok(SymAnswer::plain(pattern))
}

/// The answer.
fn answer<W: Rewrite>(
    c: &mut Circuit<'_, W>,
    op: Logic,
    y: &Lits,
    x: &Lits,
) -> Result<SymAnswer, NoMemory>
    requires word { length x.now ≤ 64 }
    requires length { length y.now ≡ length x.now }
    requires first { AreOf c.old y.now }
    requires second { AreOf c.old x.now }
    requires room { length c.old.gates < 2 ^ 30 - 2 ^ 21 }
    ensures fits { IfOk result (AnswerFits (variables c.new) (length x.now)) }
    ensures meaning { IfOk result (λ a. (val : ℕ → Bool) → Solves c.new val
        → answer_on val a ≡ logic_of op (length x.now) (number val y.now) (number val x.now)) }
    ensures grows { Grows c.old c.new }
    ensures more { length c.new.gates ≤ length c.old.gates + 64 }
{
    match op {
        Logic::Not => Ok(inverted(x)),
        Logic::And => joined(c, Bitwise::And, y, x),
        Logic::Or => joined(c, Bitwise::Or, y, x),
        Logic::Xor => joined(c, Bitwise::Xor, y, x),
    }
}

/// Puts the answer where the operation puts it.
fn put(content: &mut SymContent, op: Logic, answer: SymAnswer)
    ensures { Puts (put_logic op) answer content.old content.new }
{
    match op {
        Logic::Not => answer_x(content, answer),
        Logic::And => answer_two(content, answer),
        Logic::Or => answer_two(content, answer),
        Logic::Xor => answer_two(content, answer),
    }
}

/// Logic, done to the content.
pub fn change_logic<W: Rewrite>(
    c: &mut Circuit<'_, W>,
    content: &mut SymContent,
    control: &Control,
    op: Logic,
) -> Result<(), NoMemory>
    requires fits { Fits (variables c.old) control.now.size.bits content.old }
    requires room { length c.old.gates < 2 ^ 30 - 2 ^ 21 }
    ensures done { (given : List Bool) → IfOk result (λ _. IsDone c.old c.new control.now
        (of_logic op) given control.now.size.bits content.old content.new) }
    ensures grows { Grows c.old c.new }
    ensures more { length c.new.gates ≤ length c.old.gates + 2 ^ 17 }
{
    let answer = answer(c, op, &content.y, &content.x)?;
    put(content, op, answer);
    Ok(())
}
