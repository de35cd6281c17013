//! Products, by a sum for each literal of the second number.
ghost use Rattle.std.specs.Prelude.{◌≡◌, ℕ, ◌+◌, ◌-◌, ◌*◌, ◌^◌, ◌<◌, ◌≤◌, Bool, length, IfOk};
ghost use Rattle.jd_circuit.specs.Meaning.{lit_value};
ghost use Rattle.jd_circuit.specs.Net.{Net, IsOf, Grows, Solves};
ghost use Rattle.jd_vectors.specs.Number.{bit, number, AreOf};

use jd_circuit::{Circuit, Lit, NoMemory, Rewrite};
use jd_vectors::{Lits, add_lits};

// A number where a literal is true, and 0 where it isn't.
#[tactic(auto, using(jd_circuit::proofs::Values::grows_trans))]
fn gated<W: Rewrite>(c: &mut Circuit<'_, W>, a: &Lits, on: Lit) -> Result<Lits, NoMemory>
    requires first { AreOf c.old a.now }
    requires second { IsOf c.old on }
    requires room { length c.old.gates + length a.now < 2 ^ 30 }
    ensures length { IfOk result (λ r. length r ≡ length a.now) }
    ensures of { IfOk result (AreOf c.new) }
    ensures number { IfOk result (λ r. (val : ℕ → Bool) → Solves c.new val
        → number val r ≡ number val a.now * bit (lit_value val on)) }
    ensures grows { Grows c.old c.new }
    ensures more { length c.new.gates ≤ length c.old.gates + length a.now }
{
    let mut lits = Lits::new();
    for i in 0..a.len() {
        let both = c.and(a.at(i), on)?;
        lits.push(both);
    }
    Ok(lits)
}

/// The whole product, as long as both together. With p and q literals it adds at most 6 q (p + q)
/// gates. A constant goes second: its zeros add none.
#[tactic(auto, using(jd_circuit::proofs::Values::grows_trans))]
pub fn mul_lits<W: Rewrite>(c: &mut Circuit<'_, W>, a: &Lits, b: &Lits) -> Result<Lits, NoMemory>
    requires length { length a.now + length b.now ≤ 128 }
    requires first { AreOf c.old a.now }
    requires second { AreOf c.old b.now }
    requires room { length c.old.gates < 2 ^ 30 - 2 ^ 19 }
    ensures length { IfOk result (λ r. length r ≡ length a.now + length b.now) }
    ensures of { IfOk result (AreOf c.new) }
    ensures number { IfOk result (λ r. (val : ℕ → Bool) → Solves c.new val
        → number val r ≡ number val a.now * number val b.now) }
    ensures grows { Grows c.old c.new }
    ensures more { length c.new.gates ≤ length c.old.gates + 6 * length b.now * (length a.now + length b.now) }
{
    let mut total = Lits::new().resized(a.len());
    for i in 0..b.len() {
        let row = gated(c, a, b.at(i))?;
        let high = total.part(i, total.len());
        let (sum, carry) = add_lits(c, &high, &row, Lit::Const(false))?;
        let mut next = total.part(0, i);
        next.append(&sum);
        next.push(carry);
        total = next;
    }
    Ok(total)
}
