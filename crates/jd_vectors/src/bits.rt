//! Functions bit by bit, and equality: no bit hangs on another, as it would by a carry.
ghost use Rattle.std.specs.Prelude.{◌≡◌, ℕ, ◌+◌, ◌-◌, ◌*◌, ◌^◌, ◌<◌, ◌≤◌, Bool, length, IfOk, not, ◌==◌};
ghost use Rattle.jd_circuit.specs.Meaning.{lit_value};
ghost use Rattle.jd_circuit.specs.Net.{Net, IsOf, Grows, Solves};
ghost use Rattle.jd_vectors.specs.Number.{number, AreOf, Inside, joined, bitwise_of};

use crate::differing::differ;
use crate::list::Lits;
use jd_circuit::{Circuit, Lit, NoMemory, Rewrite};

/// A function of two bits: both, at least one, or one and not the other.
#[derive(Clone, Copy, Debug, PartialEq, Eq)]
pub enum Bitwise {
    And,
    Or,
    Xor,
}

/// The other bits: the number that makes this one up to all ones. It adds no gate.
pub fn not_lits(a: &Lits) -> Lits
    ensures length { length result ≡ length a.now }
    ensures inside { (n : ℕ) → Inside n a.now → Inside n result }
    ensures number { (val : ℕ → Bool)
        → number val result + number val a.now + 1 ≡ 2 ^ length a.now }
{
    let mut lits = Lits::new();
    for i in 0..a.len() {
        lits.push(a.at(i).opposite());
    }
    lits
}

// One bit of two numbers.
#[tactic(auto, using(crate::proofs::Kept::grows_trans))]
fn join<W: Rewrite>(c: &mut Circuit<'_, W>, kind: Bitwise, a: Lit, b: Lit) -> Result<Lit, NoMemory>
    requires first { IsOf c.old a }
    requires second { IsOf c.old b }
    requires room { length c.old.gates < 2 ^ 30 }
    ensures of { IfOk result (IsOf c.new) }
    ensures meaning { IfOk result (λ l. (val : ℕ → Bool) → Solves c.new val
        → lit_value val l ≡ joined kind (lit_value val a) (lit_value val b)) }
    ensures grows { Grows c.old c.new }
    ensures one_more { length c.new.gates ≤ length c.old.gates + 1 }
{
    match kind {
        Bitwise::And => c.and(a, b),
        Bitwise::Or => {
            let neither = c.and(a.opposite(), b.opposite())?;
            Ok(neither.opposite())
        }
        Bitwise::Xor => c.xor(a, b),
    }
}

/// Two numbers of one length joined bit by bit. It adds at most one gate a literal.
pub fn join_lits<W: Rewrite>(
    c: &mut Circuit<'_, W>,
    kind: Bitwise,
    a: &Lits,
    b: &Lits,
) -> Result<Lits, NoMemory>
    requires length { length a.now ≡ length b.now }
    requires first { AreOf c.old a.now }
    requires second { AreOf c.old b.now }
    requires room { length c.old.gates + length a.now < 2 ^ 30 }
    ensures length { IfOk result (λ r. length r ≡ length a.now) }
    ensures of { IfOk result (AreOf c.new) }
    ensures number { IfOk result (λ r. (val : ℕ → Bool) → Solves c.new val
        → number val r ≡ bitwise_of kind (number val a.now) (number val b.now)) }
    ensures grows { Grows c.old c.new }
    ensures more { length c.new.gates ≤ length c.old.gates + length a.now }
{
    let mut lits = Lits::new();
    for i in 0..a.len() {
        let one = join(c, kind, a.at(i), b.at(i))?;
        lits.push(one);
    }
    Ok(lits)
}

/// Whether two numbers of one length are equal. It adds at most two gates a literal.
pub fn same<W: Rewrite>(c: &mut Circuit<'_, W>, a: &Lits, b: &Lits) -> Result<Lit, NoMemory>
    requires length { length a.now ≡ length b.now }
    requires first { AreOf c.old a.now }
    requires second { AreOf c.old b.now }
    requires room { length c.old.gates + 2 * length a.now < 2 ^ 30 }
    ensures of { IfOk result (IsOf c.new) }
    ensures meaning { IfOk result (λ l. (val : ℕ → Bool) → Solves c.new val
        → lit_value val l ≡ (number val a.now == number val b.now)) }
    ensures grows { Grows c.old c.new }
    ensures more { length c.new.gates ≤ length c.old.gates + 2 * length a.now }
{
    let mut all = Lit::Const(true);
    for i in 0..a.len() {
        let apart = differ(c, a.at(i), b.at(i))?;
        all = c.and(all, apart.opposite())?;
    }
    Ok(all)
}
