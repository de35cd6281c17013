//! One number taken from another where it fits: a turn of long division and of the root.
ghost use Rattle.std.specs.Prelude.{◌≡◌, ℕ, ◌+◌, ◌*◌, ◌^◌, ◌<◌, ◌≤◌, Bool, length, IfOk};
ghost use Rattle.jd_circuit.specs.Meaning.{lit_value};
ghost use Rattle.jd_circuit.specs.Net.{Net, IsOf, Grows, Solves};
ghost use Rattle.jd_vectors.specs.Number.{number, AreOf};
ghost use Rattle.jd_muldiv.specs.Steps.{GoesOn, Taken};

use jd_circuit::{Circuit, Lit, NoMemory, Rewrite};
use jd_vectors::{Lits, add_lits, not_lits, select};

/// Takes a number from one of one literal more, where it fits, and says whether it did. `above`
/// says that the number to be taken goes on above these literals, and so doesn't fit. What is left
/// has to be a number of as many literals as the one that is taken.
#[tactic(auto, using(jd_circuit::proofs::Values::grows_trans))]
pub(crate) fn take_away<W: Rewrite>(
    c: &mut Circuit<'_, W>,
    from: &Lits,
    other: &Lits,
    above: Lit,
) -> Result<(Lit, Lits), NoMemory>
    requires length { length from.now ≡ length other.now + 1 }
    requires first { AreOf c.old from.now }
    requires second { AreOf c.old other.now }
    requires third { IsOf c.old above }
    requires room { length c.old.gates + 2 ^ 11 < 2 ^ 30 }
    ensures length { IfOk result (λ r. length r.1 ≡ length other.now) }
    ensures fits { IfOk result (λ r. IsOf c.new r.0) }
    ensures rest { IfOk result (λ r. AreOf c.new r.1) }
    ensures number { IfOk result (λ r. (val : ℕ → Bool) → Solves c.new val
        → (whole : ℕ) → GoesOn (number val other.now) (2 ^ length other.now) (lit_value val above) (number val from.now) whole
        → Taken (number val from.now) whole (lit_value val r.0) (number val r.1)) }
    ensures grows { Grows c.old c.new }
    ensures more { length c.new.gates ≤ length c.old.gates + 8 * length other.now + 2 }
{
    let size = other.len();
    let low = from.part(0, size);
    let top = from.at(size);
    let (less, carry) = add_lits(c, &low, &not_lits(other), Lit::Const(true))?;
    let neither = c.and(top.opposite(), carry.opposite())?;
    let fits = c.and(neither.opposite(), above.opposite())?;
    let rest = select(c, fits, &less, &low)?;
    Ok((fits, rest))
}
