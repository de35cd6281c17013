//! Square roots, by two literals of the number a turn.
ghost use Rattle.std.specs.Prelude.{◌≡◌, ℕ, ◌+◌, ◌-◌, ◌*◌, ◌^◌, ◌<◌, ◌≤◌, Bool, length, IfOk};
ghost use Rattle.jd_circuit.specs.Net.{Net, Grows, Solves};
ghost use Rattle.jd_vectors.specs.Number.{number, AreOf};
ghost use Rattle.jd_muldiv.specs.Steps.{Rooted};

use crate::taking::take_away;
use jd_circuit::{Circuit, Lit, NoMemory, Rewrite};
use jd_vectors::Lits;

/// The greatest number whose square isn't above, and how far its square is below, each as long as
/// the number. With p literals it adds at most 8 p (p + 2) gates.
#[tactic(auto, using(jd_circuit::proofs::Values::grows_trans))]
pub fn root_lits<W: Rewrite>(c: &mut Circuit<'_, W>, a: &Lits) -> Result<(Lits, Lits), NoMemory>
    requires of { AreOf c.old a.now }
    requires room { length c.old.gates < 2 ^ 30 - 2 ^ 19 }
    ensures root_length { IfOk result (λ r. length r.0 ≡ length a.now) }
    ensures rest_length { IfOk result (λ r. length r.1 ≡ length a.now) }
    ensures root { IfOk result (λ r. AreOf c.new r.0) }
    ensures rest { IfOk result (λ r. AreOf c.new r.1) }
    ensures number { IfOk result (λ r. (val : ℕ → Bool) → Solves c.new val
        → Rooted (number val a.now) (number val r.0) (number val r.1)) }
    ensures grows { Grows c.old c.new }
    ensures more { length c.new.gates ≤ length c.old.gates + 8 * length a.now * (length a.now + 2) }
{
    let half = a.len().div_ceil(2);
    let even = a.resized(2 * half);
    let mut root = Lits::new();
    let mut rest = Lits::new().resized(1);
    for i in 0..half {
        let k = 2 * (half - 1 - i);
        let upper = rest.above(even.at(k + 1));
        let dividend = upper.above(even.at(k));
        let doubled = root.above(Lit::Const(false));
        let trial = doubled.above(Lit::Const(true));
        let (fits, left) = take_away(c, &dividend, &trial, Lit::Const(false))?;
        root = root.above(fits);
        rest = left;
    }
    Ok((root.resized(a.len()), rest.resized(a.len())))
}
