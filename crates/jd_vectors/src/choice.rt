//! A choice between two literals, and between two numbers.
ghost use Rattle.std.specs.Prelude.{◌≡◌, ℕ, ◌+◌, ◌*◌, ◌^◌, ◌<◌, ◌≤◌, Bool, length, IfOk, cond};
ghost use Rattle.jd_circuit.specs.Meaning.{lit_value};
ghost use Rattle.jd_circuit.specs.Net.{Net, IsOf, Grows, Solves};
ghost use Rattle.jd_vectors.specs.Number.{number, AreOf};

use crate::list::Lits;
use jd_circuit::{Circuit, Lit, NoMemory, Rewrite};

/// The first literal where `on` is true, else the second. It adds at most three gates, And gates
/// alone, and none where both are the same.
#[tactic(auto, using(crate::proofs::Kept::grows_trans))]
pub fn choose<W: Rewrite>(
    c: &mut Circuit<'_, W>,
    on: Lit,
    yes: Lit,
    no: Lit,
) -> Result<Lit, NoMemory>
    requires first { IsOf c.old on }
    requires second { IsOf c.old yes }
    requires third { IsOf c.old no }
    requires room { length c.old.gates + 3 < 2 ^ 30 }
    ensures of { IfOk result (IsOf c.new) }
    ensures meaning { IfOk result (λ l. (val : ℕ → Bool) → Solves c.new val
        → lit_value val l ≡ cond (lit_value val on) (lit_value val yes) (lit_value val no)) }
    ensures grows { Grows c.old c.new }
    ensures three_more { length c.new.gates ≤ length c.old.gates + 3 }
{
    if yes == no {
        return Ok(yes);
    }
    let first = c.and(on, yes)?;
    let second = c.and(on.opposite(), no)?;
    let neither = c.and(first.opposite(), second.opposite())?;
    Ok(neither.opposite())
}

/// The first number where `on` is true, else the second, of the same length. It adds at most three
/// gates a literal.
pub fn select<W: Rewrite>(
    c: &mut Circuit<'_, W>,
    on: Lit,
    yes: &Lits,
    no: &Lits,
) -> Result<Lits, NoMemory>
    requires length { length yes.now ≡ length no.now }
    requires first { IsOf c.old on }
    requires second { AreOf c.old yes.now }
    requires third { AreOf c.old no.now }
    requires room { length c.old.gates + 3 * length yes.now < 2 ^ 30 }
    ensures length { IfOk result (λ r. length r ≡ length yes.now) }
    ensures of { IfOk result (AreOf c.new) }
    ensures number { IfOk result (λ r. (val : ℕ → Bool) → Solves c.new val
        → number val r ≡ cond (lit_value val on) (number val yes.now) (number val no.now)) }
    ensures grows { Grows c.old c.new }
    ensures more { length c.new.gates ≤ length c.old.gates + 3 * length yes.now }
{
    let mut lits = Lits::new();
    for i in 0..yes.len() {
        let one = choose(c, on, yes.at(i), no.at(i))?;
        lits.push(one);
    }
    Ok(lits)
}
