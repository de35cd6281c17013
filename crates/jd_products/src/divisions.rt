//! Quotients cut towards zero and what they leave, by signs and magnitudes.
ghost use Rattle.std.specs.Prelude.{◌≡◌, ℕ, ◌+◌, ◌-◌, ◌*◌, ◌^◌, ◌<◌, ◌≤◌, Bool, length, IfOk};
ghost use Rattle.hp_model.specs.Words.{value, magnitude};
ghost use Rattle.hp_model.specs.WordOperations.{quotient_of, remainder_of};
ghost use Rattle.jd_circuit.specs.Meaning.{lit_value};
ghost use Rattle.jd_circuit.specs.Net.{IsOf, Grows, Solves, variables};
ghost use Rattle.jd_vectors.specs.Number.{number, AreOf};
ghost use Rattle.jd_rows.specs.Answers.{answer_on, AnswerFits};
ghost use Rattle.jd_products.specs.Divisions.{DividedBy};

use hp_model::Mode;
use jd_circuit::{Circuit, Lit, NoMemory, Rewrite};
use jd_muldiv::div_lits;
use jd_rows::{SymAnswer, is_zero, magnitude, out_of_range, pattern_of};
use jd_vectors::{Lits, differ};

/// A quotient and what it leaves, each by sign and magnitude.
#[derive(Drop)]
pub struct Division {
    pub sign: Lit,
    pub quotient: Lits,
    pub sign_of_rest: Lit,
    pub rest: Lits,
}

/// The quotient cut towards zero of two words, of which the first may be longer, and what it leaves.
#[tactic(auto, using(jd_vectors::proofs::Kept::grows_trans))]
pub fn divided<W: Rewrite>(
    c: &mut Circuit<'_, W>,
    mode: Mode,
    y: &Lits,
    x: &Lits,
) -> Result<Division, NoMemory>
    requires some { 1 ≤ length x.now }
    requires word { length x.now ≤ 64 }
    requires length { length x.now ≤ length y.now }
    requires double { length y.now ≤ 128 }
    requires first { AreOf c.old y.now }
    requires second { AreOf c.old x.now }
    requires room { length c.old.gates < 2 ^ 30 - 2 ^ 20 }
    ensures quotient_length { IfOk result (λ d. length d.quotient ≡ length y.now) }
    ensures rest_length { IfOk result (λ d. length d.rest ≡ length x.now) }
    ensures sign { IfOk result (λ d. IsOf c.new d.sign) }
    ensures quotient { IfOk result (λ d. AreOf c.new d.quotient) }
    ensures sign_of_rest { IfOk result (λ d. IsOf c.new d.sign_of_rest) }
    ensures rest { IfOk result (λ d. AreOf c.new d.rest) }
    ensures value { IfOk result (λ d. (val : ℕ → Bool) → Solves c.new val
        → 0 < magnitude (length x.now) mode (number val x.now)
        → DividedBy (value (length y.now) mode (number val y.now)) (value (length x.now) mode
        (number val x.now))
        (lit_value val d.sign) (number val d.quotient) (lit_value val d.sign_of_rest) (number val d.rest)) }
    ensures grows { Grows c.old c.new }
    ensures more { length c.new.gates ≤ length c.old.gates + 8 * length y.now * (length x.now
        + 1) + 8 * length y.now + 8 * length x.now + 1 }
{
    let (sign_of_y, dividend) = magnitude(c, mode, y)?;
    let (sign_of_x, divisor) = magnitude(c, mode, x)?;
    let sign = differ(c, sign_of_y, sign_of_x)?;
    let (quotient, rest) = div_lits(c, &dividend, &divisor)?;
    Ok(Division {
        sign,
        quotient,
        sign_of_rest: sign_of_y,
        rest,
    })
}

/// The quotient of two words, where the divisor's value isn't 0.
#[tactic(auto, using(jd_vectors::proofs::Kept::grows_trans))]
pub fn quotient<W: Rewrite>(
    c: &mut Circuit<'_, W>,
    mode: Mode,
    y: &Lits,
    x: &Lits,
) -> Result<SymAnswer, NoMemory>
    requires some { 1 ≤ length x.now }
    requires word { length x.now ≤ 64 }
    requires length { length y.now ≡ length x.now }
    requires first { AreOf c.old y.now }
    requires second { AreOf c.old x.now }
    requires room { length c.old.gates < 2 ^ 30 - 2 ^ 21 }
    ensures fits { IfOk result (AnswerFits (variables c.new) (length x.now)) }
    ensures meaning { IfOk result (λ a. (val : ℕ → Bool) → Solves c.new val
        → 0 < magnitude (length x.now) mode (number val x.now)
        → answer_on val a ≡ quotient_of (length x.now) mode (number val y.now) (number val x.now)) }
    ensures grows { Grows c.old c.new }
    ensures more { length c.new.gates ≤ length c.old.gates + 8 * length x.now * (length x.now
        + 1) + 36 * length x.now + 2 }
{
    let size = x.len();
    let d = divided(c, mode, y, x)?;
    let pattern = pattern_of(c, mode, d.sign, &d.quotient, size)?;
    let range = out_of_range(c, mode, d.sign, &d.quotient, size)?;
    let whole = is_zero(c, &d.rest)?;
    Ok(SymAnswer {
        pattern,
        carry: Some(whole.opposite()),
        range: Some(range),
    })
}

/// What the quotient of two words leaves, where the divisor's value isn't 0.
#[tactic(auto, using(jd_vectors::proofs::Kept::grows_trans))]
pub fn remainder<W: Rewrite>(
    c: &mut Circuit<'_, W>,
    mode: Mode,
    y: &Lits,
    x: &Lits,
) -> Result<SymAnswer, NoMemory>
    requires some { 1 ≤ length x.now }
    requires word { length x.now ≤ 64 }
    requires length { length y.now ≡ length x.now }
    requires first { AreOf c.old y.now }
    requires second { AreOf c.old x.now }
    requires room { length c.old.gates < 2 ^ 30 - 2 ^ 21 }
    ensures fits { IfOk result (AnswerFits (variables c.new) (length x.now)) }
    ensures meaning { IfOk result (λ a. (val : ℕ → Bool) → Solves c.new val
        → 0 < magnitude (length x.now) mode (number val x.now)
        → answer_on val a
        ≡ remainder_of (length x.now) mode (number val y.now) (number val x.now)) }
    ensures grows { Grows c.old c.new }
    ensures more { length c.new.gates ≤ length c.old.gates + 8 * length x.now * (length x.now
        + 1) + 26 * length x.now + 2 }
{
    let size = x.len();
    let d = divided(c, mode, y, x)?;
    let pattern = pattern_of(c, mode, d.sign_of_rest, &d.rest, size)?;
    Ok(SymAnswer::plain(pattern))
}
