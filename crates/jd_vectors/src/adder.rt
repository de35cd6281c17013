//! A ripple-carry adder. Sum and carry share their first exclusive or, and the carry is made of And
//! gates alone, by which proofs are shorter.
ghost use Rattle.std.specs.Prelude.{◌≡◌, ℕ, ◌+◌, ◌*◌, ◌^◌, ◌<◌, ◌≤◌, List, Bool, length, IfOk};
ghost use Rattle.jd_circuit.specs.Meaning.{lit_value};
ghost use Rattle.jd_circuit.specs.Net.{Net, IsOf, Grows, Solves};
ghost use Rattle.jd_vectors.specs.Number.{bit, number, AreOf};

use crate::differing::differ;
use crate::list::Lits;
use jd_circuit::{Circuit, Lit, NoMemory, Rewrite};

// The sum of three bits in two.
#[tactic(auto, using(crate::proofs::Kept::grows_trans))]
fn full_add<W: Rewrite>(
    c: &mut Circuit<'_, W>,
    x: Lit,
    y: Lit,
    carry: Lit,
) -> Result<(Lit, Lit), NoMemory>
    requires first { IsOf c.old x }
    requires second { IsOf c.old y }
    requires third { IsOf c.old carry }
    requires room { length c.old.gates + 5 < 2 ^ 30 }
    ensures sum { IfOk result (λ r. IsOf c.new r.0) }
    ensures out { IfOk result (λ r. IsOf c.new r.1) }
    ensures number { IfOk result (λ r. (val : ℕ → Bool) → Solves c.new val
        → bit (lit_value val r.0) + 2 * bit (lit_value val r.1)
        ≡ bit (lit_value val x) + bit (lit_value val y) + bit (lit_value val carry)) }
    ensures grows { Grows c.old c.new }
    ensures five_more { length c.new.gates ≤ length c.old.gates + 5 }
{
    let one = differ(c, x, y)?;
    let sum = differ(c, one, carry)?;
    let both = c.and(x, y)?;
    let passed = c.and(one, carry)?;
    let neither = c.and(both.opposite(), passed.opposite())?;
    Ok((sum, neither.opposite()))
}

/// The sum of two numbers of one length and a carry, in that length, and the carry out. It adds at
/// most five gates a literal.
pub fn add_lits<W: Rewrite>(
    c: &mut Circuit<'_, W>,
    a: &Lits,
    b: &Lits,
    carry: Lit,
) -> Result<(Lits, Lit), NoMemory>
    requires length { length a.now ≡ length b.now }
    requires first { AreOf c.old a.now }
    requires second { AreOf c.old b.now }
    requires third { IsOf c.old carry }
    requires room { length c.old.gates + 5 * length a.now < 2 ^ 30 }
    ensures length { IfOk result (λ r. length r.0 ≡ length a.now) }
    ensures sum { IfOk result (λ r. AreOf c.new r.0) }
    ensures out { IfOk result (λ r. IsOf c.new r.1) }
    ensures number { IfOk result (λ r. (val : ℕ → Bool) → Solves c.new val
        → number val r.0 + 2 ^ length a.now * bit (lit_value val r.1)
        ≡ number val a.now + number val b.now + bit (lit_value val carry)) }
    ensures grows { Grows c.old c.new }
    ensures more { length c.new.gates ≤ length c.old.gates + 5 * length a.now }
{
    let mut sum = Lits::new();
    let mut carried = carry;
    for i in 0..a.len() {
        let (digit, out) = full_add(c, a.at(i), b.at(i), carried)?;
        sum.push(digit);
        carried = out;
    }
    Ok((sum, carried))
}
