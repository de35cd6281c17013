//! Products of twice a word's size, and quotients of such numbers.
ghost use Rattle.std.specs.Prelude.{◌≡◌, ℕ, ◌+◌, ◌-◌, ◌*◌, ◌^◌, ◌<◌, ◌≤◌, ◌*ℤ◌, Bool, not, length, IfOk};
ghost use Rattle.hp_model.specs.Words.{value, low, fits, magnitude};
ghost use Rattle.hp_model.specs.WordOperations.{double_product, double_quotient, double_quotient_of, double_remainder_of};
ghost use Rattle.jd_circuit.specs.Meaning.{lit_value};
ghost use Rattle.jd_circuit.specs.Net.{IsOf, Grows, Solves, variables};
ghost use Rattle.jd_vectors.specs.Number.{number, AreOf, Inside};
ghost use Rattle.jd_rows.specs.Answers.{answer_on, AnswerFits};

use crate::divisions::divided;
use crate::products::signed_product;
use hp_model::Mode;
use jd_circuit::{Circuit, Lit, NoMemory, Rewrite};
use jd_rows::{SymAnswer, is_zero, out_of_range, pattern_of};
use jd_vectors::Lits;

/// The words of the double product, the lower one first in the list.
#[tactic(auto, using(jd_vectors::proofs::Kept::grows_trans))]
fn product_of_double<W: Rewrite>(
    c: &mut Circuit<'_, W>,
    mode: Mode,
    y: &Lits,
    x: &Lits,
) -> Result<Lits, NoMemory>
    requires some { 1 ≤ length x.now }
    requires word { length x.now ≤ 64 }
    requires length { length y.now ≡ length x.now }
    requires first { AreOf c.old y.now }
    requires second { AreOf c.old x.now }
    requires room { length c.old.gates < 2 ^ 30 - 2 ^ 21 }
    ensures length { IfOk result (λ r. length r ≡ 2 * length x.now) }
    ensures of { IfOk result (AreOf c.new) }
    ensures number { IfOk result (λ r. (val : ℕ → Bool) → Solves c.new val
        → number val r
        ≡ low (2 * length x.now) mode (value (length x.now) mode (number val y.now) *ℤ value
        (length x.now) mode (number val x.now))) }
    ensures grows { Grows c.old c.new }
    ensures more { length c.new.gates ≤ length c.old.gates + 12 * length x.now * length x.now
        + 36 * length x.now + 2 }
{
    let (sign, magnitude) = signed_product(c, mode, y, x)?;
    let pattern = pattern_of(c, mode, sign, &magnitude, magnitude.len())?;
    Ok(pattern)
}

/// The upper and the lower word of the double product.
pub fn double_multiply<W: Rewrite>(
    c: &mut Circuit<'_, W>,
    mode: Mode,
    y: &Lits,
    x: &Lits,
) -> Result<(Lits, Lits), NoMemory>
    requires some { 1 ≤ length x.now }
    requires word { length x.now ≤ 64 }
    requires length { length y.now ≡ length x.now }
    requires first { AreOf c.old y.now }
    requires second { AreOf c.old x.now }
    requires room { length c.old.gates < 2 ^ 30 - 2 ^ 21 }
    ensures upper_length { IfOk result (λ r. length r.0 ≡ length x.now) }
    ensures lower_length { IfOk result (λ r. length r.1 ≡ length x.now) }
    ensures upper { IfOk result (λ r. AreOf c.new r.0) }
    ensures lower { IfOk result (λ r. AreOf c.new r.1) }
    ensures words { IfOk result (λ r. (val : ℕ → Bool) → Solves c.new val
        → (number val r.0, number val r.1)
        ≡ double_product (length x.now) mode (number val y.now) (number val x.now)) }
    ensures grows { Grows c.old c.new }
    ensures more { length c.new.gates ≤ length c.old.gates + 12 * length x.now * length x.now
        + 36 * length x.now + 2 }
{
    let pattern = product_of_double(c, mode, y, x)?;
    let size = x.len();
    let upper = pattern.part(size, pattern.len());
    let lower = pattern.part(0, size);
    Ok((upper, lower))
}

/// Two words as one, the lower one first.
fn double_word(upper: &Lits, lower: &Lits) -> Lits
    requires word { length lower.now ≤ 64 }
    requires length { length upper.now ≡ length lower.now }
    ensures length { length result ≡ 2 * length lower.now }
    ensures inside { (n : ℕ) → Inside n upper.now → Inside n lower.now → Inside n result }
    ensures number { (val : ℕ → Bool)
        → number val result ≡ number val upper.now * 2 ^ length lower.now + number val lower.now }
{
    let mut whole = lower.copy();
    whole.append(upper);
    whole
}

/// The quotient of a double word, where the divisor's value isn't 0. That it fits is asked before
/// (`quotient_is_too_great`), so out of range is cleared.
#[tactic(auto, using(jd_vectors::proofs::Kept::grows_trans))]
pub fn double_divide<W: Rewrite>(
    c: &mut Circuit<'_, W>,
    mode: Mode,
    upper: &Lits,
    lower: &Lits,
    x: &Lits,
) -> Result<SymAnswer, NoMemory>
    requires some { 1 ≤ length x.now }
    requires word { length x.now ≤ 64 }
    requires upper_length { length upper.now ≡ length x.now }
    requires lower_length { length lower.now ≡ length x.now }
    requires first { AreOf c.old upper.now }
    requires second { AreOf c.old lower.now }
    requires third { AreOf c.old x.now }
    requires room { length c.old.gates < 2 ^ 30 - 2 ^ 21 }
    ensures fits { IfOk result (AnswerFits (variables c.new) (length x.now)) }
    ensures meaning { IfOk result (λ a. (val : ℕ → Bool) → Solves c.new val
        → 0 < magnitude (length x.now) mode (number val x.now)
        → answer_on val a
        ≡ double_quotient_of (length x.now) mode (number val upper.now) (number val lower.now)
        (number val x.now)) }
    ensures grows { Grows c.old c.new }
    ensures more { length c.new.gates ≤ length c.old.gates + 16 * length x.now * (length x.now
        + 1) + 46 * length x.now + 2 }
{
    let size = x.len();
    let y = double_word(upper, lower);
    let d = divided(c, mode, &y, x)?;
    let pattern = pattern_of(c, mode, d.sign, &d.quotient, size)?;
    let whole = is_zero(c, &d.rest)?;
    Ok(SymAnswer {
        pattern,
        carry: Some(whole.opposite()),
        range: Some(Lit::Const(false)),
    })
}

/// What the quotient of a double word leaves, where the divisor's value isn't 0.
#[tactic(auto, using(jd_vectors::proofs::Kept::grows_trans))]
pub fn double_remainder<W: Rewrite>(
    c: &mut Circuit<'_, W>,
    mode: Mode,
    upper: &Lits,
    lower: &Lits,
    x: &Lits,
) -> Result<SymAnswer, NoMemory>
    requires some { 1 ≤ length x.now }
    requires word { length x.now ≤ 64 }
    requires upper_length { length upper.now ≡ length x.now }
    requires lower_length { length lower.now ≡ length x.now }
    requires first { AreOf c.old upper.now }
    requires second { AreOf c.old lower.now }
    requires third { AreOf c.old x.now }
    requires room { length c.old.gates < 2 ^ 30 - 2 ^ 21 }
    ensures fits { IfOk result (AnswerFits (variables c.new) (length x.now)) }
    ensures meaning { IfOk result (λ a. (val : ℕ → Bool) → Solves c.new val
        → 0 < magnitude (length x.now) mode (number val x.now)
        → answer_on val a
        ≡ double_remainder_of (length x.now) mode (number val upper.now) (number val lower.now)
        (number val x.now)) }
    ensures grows { Grows c.old c.new }
    ensures more { length c.new.gates ≤ length c.old.gates + 16 * length x.now * (length x.now
        + 1) + 34 * length x.now + 2 }
{
    let size = x.len();
    let y = double_word(upper, lower);
    let d = divided(c, mode, &y, x)?;
    let pattern = pattern_of(c, mode, d.sign_of_rest, &d.rest, size)?;
    Ok(SymAnswer::plain(pattern))
}

/// Whether the quotient of a double word doesn't fit, where the divisor's value isn't 0.
#[tactic(auto, using(jd_vectors::proofs::Kept::grows_trans))]
pub fn quotient_is_too_great<W: Rewrite>(
    c: &mut Circuit<'_, W>,
    mode: Mode,
    upper: &Lits,
    lower: &Lits,
    x: &Lits,
) -> Result<Lit, NoMemory>
    requires some { 1 ≤ length x.now }
    requires word { length x.now ≤ 64 }
    requires upper_length { length upper.now ≡ length x.now }
    requires lower_length { length lower.now ≡ length x.now }
    requires first { AreOf c.old upper.now }
    requires second { AreOf c.old lower.now }
    requires third { AreOf c.old x.now }
    requires room { length c.old.gates < 2 ^ 30 - 2 ^ 21 }
    ensures of { IfOk result (IsOf c.new) }
    ensures meaning { IfOk result (λ l. (val : ℕ → Bool) → Solves c.new val
        → 0 < magnitude (length x.now) mode (number val x.now)
        → lit_value val l
        ≡ not (fits (length x.now) mode (double_quotient (length x.now) mode
        (number val upper.now) (number val lower.now) (number val x.now)))) }
    ensures grows { Grows c.old c.new }
    ensures more { length c.new.gates ≤ length c.old.gates + 16 * length x.now * (length x.now
        + 1) + 40 * length x.now + 1 }
{
    let size = x.len();
    let y = double_word(upper, lower);
    let d = divided(c, mode, &y, x)?;
    let range = out_of_range(c, mode, d.sign, &d.quotient, size)?;
    Ok(range)
}
