//! Products of words, by signs and magnitudes.
ghost use Rattle.std.specs.Prelude.{◌≡◌, ℕ, ◌+◌, ◌-◌, ◌*◌, ◌^◌, ◌<◌, ◌≤◌, ◌*ℤ◌, Bool, length, IfOk};
ghost use Rattle.hp_model.specs.Words.{value};
ghost use Rattle.hp_model.specs.WordOperations.{product_of};
ghost use Rattle.jd_circuit.specs.Meaning.{lit_value};
ghost use Rattle.jd_circuit.specs.Net.{IsOf, Grows, Solves, variables};
ghost use Rattle.jd_vectors.specs.Number.{number, AreOf};
ghost use Rattle.jd_rows.specs.Answers.{with_sign, answer_on, AnswerFits};

use hp_model::Mode;
use jd_circuit::{Circuit, Lit, NoMemory, Rewrite};
use jd_muldiv::mul_lits;
use jd_rows::{SymAnswer, magnitude, ranged};
use jd_vectors::{Lits, differ};

/// A literal's rank, a constant's the lowest.
fn rank(l: Lit) -> u64 {
    match l {
        Lit::Const(_) => 0,
        Lit::Var(v) => 2 * v as u64,
        Lit::Not(v) => 2 * v as u64 + 1,
    }
}

/// Whether a number ranks below another of as many literals, by the highest place where they differ.
fn ranks_below(a: &Lits, b: &Lits) -> bool
    requires { length a.now ≡ length b.now }
{
    let mut below = false;
    for i in 0..a.len() {
        let of_a = rank(a.at(i));
        let of_b = rank(b.at(i));
        if of_a != of_b {
            below = of_a < of_b;
        }
    }
    below
}

/// The whole product of two numbers of as many literals, of the same gates in either order. The one
/// that ranks lower goes second, as constants are to.
#[tactic(auto, using(jd_vectors::proofs::Kept::grows_trans))]
fn multiplied<W: Rewrite>(c: &mut Circuit<'_, W>, a: &Lits, b: &Lits) -> Result<Lits, NoMemory>
    requires same { length a.now ≡ length b.now }
    requires word { length b.now ≤ 64 }
    requires first { AreOf c.old a.now }
    requires second { AreOf c.old b.now }
    requires room { length c.old.gates < 2 ^ 30 - 2 ^ 19 }
    ensures length { IfOk result (λ r. length r ≡ 2 * length b.now) }
    ensures of { IfOk result (AreOf c.new) }
    ensures number { IfOk result (λ r. (val : ℕ → Bool) → Solves c.new val
        → number val r ≡ number val a.now * number val b.now) }
    ensures grows { Grows c.old c.new }
    ensures more { length c.new.gates ≤ length c.old.gates + 12 * length b.now * length b.now }
{
    if ranks_below(a, b) {
        return mul_lits(c, b, a);
    }
    mul_lits(c, a, b)
}

/// Sign and magnitude of the product.
#[tactic(auto, using(jd_vectors::proofs::Kept::grows_trans))]
pub fn signed_product<W: Rewrite>(
    c: &mut Circuit<'_, W>,
    mode: Mode,
    y: &Lits,
    x: &Lits,
) -> Result<(Lit, Lits), NoMemory>
    requires some { 1 ≤ length x.now }
    requires word { length x.now ≤ 64 }
    requires length { length y.now ≡ length x.now }
    requires first { AreOf c.old y.now }
    requires second { AreOf c.old x.now }
    requires room { length c.old.gates < 2 ^ 30 - 2 ^ 20 }
    ensures length { IfOk result (λ r. length r.1 ≡ 2 * length x.now) }
    ensures sign { IfOk result (λ r. IsOf c.new r.0) }
    ensures of { IfOk result (λ r. AreOf c.new r.1) }
    ensures value { IfOk result (λ r. (val : ℕ → Bool) → Solves c.new val
        → value (length x.now) mode (number val y.now) *ℤ value (length x.now) mode
        (number val x.now) ≡ with_sign (lit_value val r.0) (number val r.1)) }
    ensures grows { Grows c.old c.new }
    ensures more { length c.new.gates ≤ length c.old.gates + 12 * length x.now * length x.now
        + 16 * length x.now + 1 }
{
    let (sign_of_y, first) = magnitude(c, mode, y)?;
    let (sign_of_x, second) = magnitude(c, mode, x)?;
    let sign = differ(c, sign_of_y, sign_of_x)?;
    let product = multiplied(c, &first, &second)?;
    Ok((sign, product))
}

/// The product of two words, out of range where it doesn't fit.
#[tactic(auto, using(jd_vectors::proofs::Kept::grows_trans))]
pub fn product<W: Rewrite>(
    c: &mut Circuit<'_, W>,
    mode: Mode,
    y: &Lits,
    x: &Lits,
) -> Result<SymAnswer, NoMemory>
    requires some { 1 ≤ length x.now }
    requires word { length x.now ≤ 64 }
    requires length { length y.now ≡ length x.now }
    requires first { AreOf c.old y.now }
    requires second { AreOf c.old x.now }
    requires room { length c.old.gates < 2 ^ 30 - 2 ^ 21 }
    ensures fits { IfOk result (AnswerFits (variables c.new) (length x.now)) }
    ensures meaning { IfOk result (λ a. (val : ℕ → Bool) → Solves c.new val
        → answer_on val a ≡ product_of (length x.now) mode (number val y.now) (number val x.now)) }
    ensures grows { Grows c.old c.new }
    ensures more { length c.new.gates ≤ length c.old.gates + 12 * length x.now * length x.now
        + 52 * length x.now + 2 }
{
    let (sign, magnitude) = signed_product(c, mode, y, x)?;
    let answer = ranged(c, mode, sign, &magnitude, x.len())?;
    Ok(answer)
}
