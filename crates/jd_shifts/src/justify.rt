//! A number moved up until its highest bit is 1, as the operation LJ of the HP-16C does.
ghost use Rattle.std.specs.Prelude.{◌≡◌, ℕ, ◌+◌, ◌-◌, ◌*◌, ◌/◌, ◌%◌, ◌^◌, ◌<◌, ◌≤◌, Bool, length, IfOk};
ghost use Rattle.jd_circuit.specs.Meaning.{lit_value};
ghost use Rattle.jd_circuit.specs.Net.{Net, IsOf, Grows, Solves};
ghost use Rattle.jd_vectors.specs.Number.{number, AreOf};
ghost use Rattle.jd_shifts.specs.Moves.{Staged, Justified};

use crate::shifts::shifted;
use jd_circuit::{Circuit, Lit, NoMemory, Rewrite};
use jd_vectors::{Lits, same, select};

// Moves a number up so many places where as many of its highest literals are false, and says
// whether it did.
#[tactic(auto, using(jd_circuit::proofs::Values::grows_trans))]
fn stage<W: Rewrite>(
    c: &mut Circuit<'_, W>,
    x: &Lits,
    places: usize,
) -> Result<(Lit, Lits), NoMemory>
    requires of { AreOf c.old x.now }
    requires room { length c.old.gates + 2 ^ 10 < 2 ^ 30 }
    ensures length { IfOk result (λ r. length r.1 ≡ length x.now) }
    ensures moves { IfOk result (λ r. IsOf c.new r.0) }
    ensures of { IfOk result (λ r. AreOf c.new r.1) }
    ensures number { IfOk result (λ r. (val : ℕ → Bool) → Solves c.new val
        → Staged (length x.now) places (number val x.now) (lit_value val r.0) (number val r.1)) }
    ensures grows { Grows c.old c.new }
    ensures more { length c.new.gates ≤ length c.old.gates + 5 * length x.now }
{
    let size = x.len();
    if size <= places {
        return Ok((Lit::Const(false), x.copy()));
    }
    let high = x.part(size - places, size);
    let zeros = Lits::new().resized(places);
    let moves = same(c, &high, &zeros)?;
    let moved = shifted(x, places);
    let next = select(c, moves, &moved, x)?;
    Ok((moves, next))
}

/// How many places a number can be moved up until its highest bit is 1, in seven literals, and the
/// number so moved; no places for 0. It adds at most 35 gates a literal and 21 more.
#[tactic(auto, using(jd_circuit::proofs::Values::grows_trans))]
pub fn left_justify<W: Rewrite>(c: &mut Circuit<'_, W>, x: &Lits) -> Result<(Lits, Lits), NoMemory>
    requires some { 1 ≤ length x.now }
    requires of { AreOf c.old x.now }
    requires room { length c.old.gates < 2 ^ 30 - 2 ^ 18 }
    ensures count_length { IfOk result (λ r. length r.0 ≡ 7) }
    ensures length { IfOk result (λ r. length r.1 ≡ length x.now) }
    ensures count { IfOk result (λ r. AreOf c.new r.0) }
    ensures of { IfOk result (λ r. AreOf c.new r.1) }
    ensures number { IfOk result (λ r. (val : ℕ → Bool) → Solves c.new val
        → Justified (length x.now) (number val x.now) (number val r.0) (number val r.1)) }
    ensures grows { Grows c.old c.new }
    ensures more { length c.new.gates ≤ length c.old.gates + 35 * length x.now + 21 }
{
    let size = x.len();
    let mut current = x.copy();
    let mut count = Lits::new();
    let mut gap: usize = 128;
    for i in 0..7usize {
        gap /= 2;
        let (moves, next) = stage(c, &current, gap)?;
        count = count.above(moves);
        current = next;
    }
    let top = current.at(size - 1);
    let zeros = Lits::new().resized(7);
    let shown = select(c, top, &count, &zeros)?;
    Ok((shown, current))
}
