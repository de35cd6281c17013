//! The change of sign, and the absolute value.
ghost use Rattle.std.specs.Prelude.{◌≡◌, ℕ, ◌+◌, ◌*◌, ◌^◌, ◌<◌, ◌≤◌, Bool, length, IfOk};
ghost use Rattle.hp_model.specs.WordOperations.{negation_of, absolute_of};
ghost use Rattle.jd_circuit.specs.Net.{Grows, Solves, variables};
ghost use Rattle.jd_vectors.specs.Number.{number, AreOf, Inside};
ghost use Rattle.jd_rows.specs.Answers.{AnswerFits, answer_on};

use crate::answer::SymAnswer;
use crate::magnitudes::{magnitude, ranged};
use crate::words::{is_zero, minus, top};
use hp_model::Mode;
use jd_circuit::{Circuit, Lit, NoMemory, Rewrite};
use jd_vectors::{Lits, not_lits};

/// The negative of an unsigned word, which is out of range unless it is 0.
#[tactic(auto, using(jd_vectors::proofs::Kept::grows_trans))]
fn negation_unsigned<W: Rewrite>(c: &mut Circuit<'_, W>, x: &Lits) -> Result<SymAnswer, NoMemory>
    requires some { 1 ≤ length x.now }
    requires word { length x.now ≤ 64 }
    requires of { AreOf c.old x.now }
    requires room { length c.old.gates + 1000 < 2 ^ 30 }
    ensures fits { IfOk result (AnswerFits (variables c.new) (length x.now)) }
    ensures meaning { IfOk result (λ a. (val : ℕ → Bool) → Solves c.new val
        → answer_on val a ≡ negation_of (length x.now) Mode.Unsigned (number val x.now)) }
    ensures grows { Grows c.old c.new }
    ensures more { length c.new.gates ≤ length c.old.gates + 12 * length x.now }
{
    let zeros = Lits::constant(x.len() as u8, 0);
    let (pattern, _) = minus(c, &zeros, x)?;
    let zero = is_zero(c, x)?;
    Ok(SymAnswer {
        pattern,
        carry: None,
        range: Some(zero.opposite()),
    })
}

/// The negative of a word in two's complement, which is out of range where the least one stays.
#[tactic(auto, using(jd_vectors::proofs::Kept::grows_trans))]
fn negation_twos<W: Rewrite>(c: &mut Circuit<'_, W>, x: &Lits) -> Result<SymAnswer, NoMemory>
    requires some { 1 ≤ length x.now }
    requires word { length x.now ≤ 64 }
    requires of { AreOf c.old x.now }
    requires room { length c.old.gates + 1000 < 2 ^ 30 }
    ensures fits { IfOk result (AnswerFits (variables c.new) (length x.now)) }
    ensures meaning { IfOk result (λ a. (val : ℕ → Bool) → Solves c.new val
        → answer_on val a ≡ negation_of (length x.now) Mode.Twos (number val x.now)) }
    ensures grows { Grows c.old c.new }
    ensures more { length c.new.gates ≤ length c.old.gates + 12 * length x.now }
{
    let zeros = Lits::constant(x.len() as u8, 0);
    let (pattern, _) = minus(c, &zeros, x)?;
    let range = c.and(top(x), top(&pattern))?;
    Ok(SymAnswer {
        pattern,
        carry: None,
        range: Some(range),
    })
}

/// The negative of a word in one's complement, which is always in range.
fn negation_ones(x: &Lits) -> SymAnswer
    requires { 1 ≤ length x.now }
    ensures fits { (n : ℕ) → Inside n x.now → AnswerFits n (length x.now) result }
    ensures meaning { (val : ℕ → Bool) → answer_on val result
        ≡ negation_of (length x.now) Mode.Ones (number val x.now) }
{
    SymAnswer {
        pattern: not_lits(x),
        carry: None,
        range: Some(Lit::Const(false)),
    }
}

/// The negative of a word.
pub fn negation<W: Rewrite>(
    c: &mut Circuit<'_, W>,
    mode: Mode,
    x: &Lits,
) -> Result<SymAnswer, NoMemory>
    requires some { 1 ≤ length x.now }
    requires word { length x.now ≤ 64 }
    requires of { AreOf c.old x.now }
    requires room { length c.old.gates + 1000 < 2 ^ 30 }
    ensures fits { IfOk result (AnswerFits (variables c.new) (length x.now)) }
    ensures meaning { IfOk result (λ a. (val : ℕ → Bool) → Solves c.new val
        → answer_on val a ≡ negation_of (length x.now) mode (number val x.now)) }
    ensures grows { Grows c.old c.new }
    ensures more { length c.new.gates ≤ length c.old.gates + 12 * length x.now }
{
    match mode {
        Mode::Unsigned => negation_unsigned(c, x),
        Mode::Twos => negation_twos(c, x),
        Mode::Ones => Ok(negation_ones(x)),
    }
}

/// The absolute value of a word.
#[tactic(auto, using(jd_vectors::proofs::Kept::grows_trans))]
pub fn absolute<W: Rewrite>(
    c: &mut Circuit<'_, W>,
    mode: Mode,
    x: &Lits,
) -> Result<SymAnswer, NoMemory>
    requires some { 1 ≤ length x.now }
    requires word { length x.now ≤ 64 }
    requires of { AreOf c.old x.now }
    requires room { length c.old.gates + 26 * length x.now + 1 < 2 ^ 30 }
    ensures fits { IfOk result (AnswerFits (variables c.new) (length x.now)) }
    ensures meaning { IfOk result (λ a. (val : ℕ → Bool) → Solves c.new val
        → answer_on val a ≡ absolute_of (length x.now) mode (number val x.now)) }
    ensures grows { Grows c.old c.new }
    ensures more { length c.new.gates ≤ length c.old.gates + 26 * length x.now + 1 }
{
    let (_sign, magnitude) = magnitude(c, mode, x)?;
    let answer = ranged(c, mode, Lit::Const(false), &magnitude, x.len())?;
    Ok(answer)
}
