//! Shifts and rotations by as many places as literals say: a choice for each of these, between what
//! stands and what it is after that literal's power of two of places.
ghost use Rattle.std.specs.Prelude.{◌≡◌, ℕ, ◌+◌, ◌-◌, ◌*◌, ◌/◌, ◌%◌, ◌^◌, ◌<◌, ◌≤◌, Bool, length, IfOk};
ghost use Rattle.jd_circuit.specs.Net.{Net, Grows, Solves};
ghost use Rattle.jd_vectors.specs.Number.{number, AreOf, Inside};
ghost use Rattle.jd_shifts.specs.Moves.{moved_round};

use jd_circuit::{Circuit, NoMemory, Rewrite};
use jd_vectors::{Lits, select};

/// So many zeros come in at the low end, and as many of the highest go. It adds no gate.
pub(crate) fn shifted(a: &Lits, places: usize) -> Lits
    ensures length { length result ≡ length a.now }
    ensures inside { (n : ℕ) → Inside n a.now → Inside n result }
    ensures number { (val : ℕ → Bool) → number val result ≡ number val a.now * 2 ^ places % 2 ^ length a.now }
{
    let size = a.len();
    if size <= places {
        return Lits::new().resized(size);
    }
    let mut lits = Lits::new().resized(places);
    lits.append(&a.part(0, size - places));
    lits
}

// So many of the highest come in at the low end.
fn turned(a: &Lits, places: usize) -> Lits
    requires { places ≤ length a.now }
    ensures length { length result ≡ length a.now }
    ensures inside { (n : ℕ) → Inside n a.now → Inside n result }
    ensures number { (val : ℕ → Bool) → number val result ≡ moved_round (length a.now) places (number val a.now) }
{
    let size = a.len();
    let mut lits = a.part(size - places, size);
    lits.append(&a.part(0, size - places));
    lits
}

/// The number times two to the power of the other, in its length. It adds at most 24 gates a
/// literal.
#[tactic(auto, using(jd_circuit::proofs::Values::grows_trans))]
pub fn shift_left<W: Rewrite>(c: &mut Circuit<'_, W>, a: &Lits, by: &Lits) -> Result<Lits, NoMemory>
    requires places { length by.now ≤ 8 }
    requires some { 1 ≤ length a.now }
    requires first { AreOf c.old a.now }
    requires second { AreOf c.old by.now }
    requires room { length c.old.gates < 2 ^ 30 - 2 ^ 18 }
    ensures length { IfOk result (λ r. length r ≡ length a.now) }
    ensures of { IfOk result (AreOf c.new) }
    ensures number { IfOk result (λ r. (val : ℕ → Bool) → Solves c.new val
        → number val r ≡ number val a.now * 2 ^ number val by.now % 2 ^ length a.now) }
    ensures grows { Grows c.old c.new }
    ensures more { length c.new.gates ≤ length c.old.gates + 24 * length a.now }
{
    let mut current = a.copy();
    let mut places: usize = 1;
    for i in 0..by.len() {
        let moved = shifted(&current, places);
        current = select(c, by.at(i), &moved, &current)?;
        places *= 2;
    }
    Ok(current)
}

/// The number turned round so many places, of which whole turns count nothing. It adds at most 24
/// gates a literal.
#[tactic(auto, using(jd_circuit::proofs::Values::grows_trans))]
pub fn rotate_left<W: Rewrite>(
    c: &mut Circuit<'_, W>,
    a: &Lits,
    by: &Lits,
) -> Result<Lits, NoMemory>
    requires places { length by.now ≤ 8 }
    requires some { 1 ≤ length a.now }
    requires first { AreOf c.old a.now }
    requires second { AreOf c.old by.now }
    requires room { length c.old.gates < 2 ^ 30 - 2 ^ 18 }
    ensures length { IfOk result (λ r. length r ≡ length a.now) }
    ensures of { IfOk result (AreOf c.new) }
    ensures number { IfOk result (λ r. (val : ℕ → Bool) → Solves c.new val
        → number val r ≡ moved_round (length a.now) (number val by.now % length a.now) (number val a.now)) }
    ensures grows { Grows c.old c.new }
    ensures more { length c.new.gates ≤ length c.old.gates + 24 * length a.now }
{
    let size = a.len();
    let mut current = a.copy();
    let mut places = 1 % size;
    for i in 0..by.len() {
        let moved = turned(&current, places);
        current = select(c, by.at(i), &moved, &current)?;
        places = places * 2 % size;
    }
    Ok(current)
}
