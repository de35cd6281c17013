//! Comparison and negation of numbers.
ghost use Rattle.std.specs.Prelude.{◌≡◌, ℕ, ◌+◌, ◌-◌, ◌*◌, ◌%◌, ◌^◌, ◌<◌, ◌≤◌, Bool, length, IfOk, nat_lt};
ghost use Rattle.jd_circuit.specs.Meaning.{lit_value};
ghost use Rattle.jd_circuit.specs.Net.{Net, IsOf, Grows, Solves};
ghost use Rattle.jd_vectors.specs.Number.{number, AreOf};

use jd_circuit::{Circuit, Lit, NoMemory, Rewrite};
use jd_vectors::{Lits, add_lits, choose, differ, not_lits};

/// Whether the first number is less than the second, of the same length: where two literals differ,
/// that of the second says so, whatever those below said. It adds at most five gates a literal.
#[tactic(auto, using(jd_circuit::proofs::Values::grows_trans))]
pub fn less<W: Rewrite>(c: &mut Circuit<'_, W>, a: &Lits, b: &Lits) -> Result<Lit, NoMemory>
    requires length { length a.now ≡ length b.now }
    requires first { AreOf c.old a.now }
    requires second { AreOf c.old b.now }
    requires room { length c.old.gates + 5 * length a.now < 2 ^ 30 }
    ensures of { IfOk result (IsOf c.new) }
    ensures meaning { IfOk result (λ l. (val : ℕ → Bool) → Solves c.new val
        → lit_value val l ≡ nat_lt (number val a.now) (number val b.now)) }
    ensures grows { Grows c.old c.new }
    ensures more { length c.new.gates ≤ length c.old.gates + 5 * length a.now }
{
    let mut less = Lit::Const(false);
    for i in 0..a.len() {
        let other = b.at(i);
        let apart = differ(c, a.at(i), other)?;
        less = choose(c, apart, other, less)?;
    }
    Ok(less)
}

/// The two's complement: 2 to the length less the number, and 0 for 0. It adds at most five gates a
/// literal.
#[tactic(auto, using(jd_circuit::proofs::Values::grows_trans))]
pub fn negate<W: Rewrite>(c: &mut Circuit<'_, W>, a: &Lits) -> Result<Lits, NoMemory>
    requires first { AreOf c.old a.now }
    requires room { length c.old.gates + 5 * length a.now < 2 ^ 30 }
    ensures length { IfOk result (λ r. length r ≡ length a.now) }
    ensures of { IfOk result (AreOf c.new) }
    ensures number { IfOk result (λ r. (val : ℕ → Bool) → Solves c.new val
        → number val r ≡ (2 ^ length a.now - number val a.now) % 2 ^ length a.now) }
    ensures grows { Grows c.old c.new }
    ensures more { length c.new.gates ≤ length c.old.gates + 5 * length a.now }
{
    let zero = Lits::new().resized(a.len());
    let (sum, _carry) = add_lits(c, &not_lits(a), &zero, Lit::Const(true))?;
    Ok(sum)
}
