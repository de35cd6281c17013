//! How many literals are true: two of them a sum, one as a number and one as the carry.
ghost use Rattle.std.specs.Prelude.{◌≡◌, ℕ, ◌+◌, ◌-◌, ◌*◌, ◌^◌, ◌<◌, ◌≤◌, Bool, length, take, IfOk};
ghost use Rattle.jd_circuit.specs.Meaning.{lit_value};
ghost use Rattle.jd_circuit.specs.Net.{Net, Grows, IsLit, Solves};
ghost use Rattle.jd_vectors.specs.Number.{bit, number, AreOf, Inside};
ghost use Rattle.jd_shifts.specs.Moves.{trues};

use jd_circuit::{Circuit, Lit, NoMemory, Rewrite};
use jd_vectors::{Lits, add_lits};

// The literal at a place, and false past the end.
fn literal_or_false(a: &Lits, i: usize) -> Lit
    ensures inside { (n : ℕ) → Inside n a.now → IsLit n result }
    ensures value { (val : ℕ → Bool)
        → trues val (take (i + 1) a.now) ≡ trues val (take i a.now) + bit (lit_value val result) }
{
    if i < a.len() {
        a.at(i)
    } else {
        Lit::Const(false)
    }
}

/// The count of the true literals, in eight. It adds at most 40 gates a literal.
#[tactic(auto, using(jd_circuit::proofs::Values::grows_trans))]
pub fn ones<W: Rewrite>(c: &mut Circuit<'_, W>, a: &Lits) -> Result<Lits, NoMemory>
    requires of { AreOf c.old a.now }
    requires room { length c.old.gates < 2 ^ 30 - 2 ^ 18 }
    ensures length { IfOk result (λ r. length r ≡ 8) }
    ensures of { IfOk result (AreOf c.new) }
    ensures number { IfOk result (λ r. (val : ℕ → Bool) → Solves c.new val
        → number val r ≡ trues val a.now) }
    ensures grows { Grows c.old c.new }
    ensures more { length c.new.gates ≤ length c.old.gates + 40 * length a.now }
{
    let mut count = Lits::new().resized(8);
    for i in 0..a.len().div_ceil(2) {
        let first = literal_or_false(a, 2 * i);
        let second = literal_or_false(a, 2 * i + 1);
        let one = Lits::new().above(first).resized(8);
        let (sum, _carry) = add_lits(c, &count, &one, second)?;
        count = sum;
    }
    Ok(count)
}
