//! Words turned so many places.
ghost use Rattle.std.specs.Prelude.{◌≡◌, ℕ, ◌+◌, ◌-◌, ◌*◌, ◌^◌, ◌<◌, ◌≤◌, ◌==◌, Bool, length, IfOk};
ghost use Rattle.hp_model.specs.WordOperations.{turned_times};
ghost use Rattle.hp_model.specs.Operations.{left, right};
ghost use Rattle.jd_circuit.specs.Meaning.{lit_value};
ghost use Rattle.jd_circuit.specs.Net.{IsOf, Grows, Solves, variables};
ghost use Rattle.jd_vectors.specs.Number.{number, AreOf};

use jd_circuit::{Circuit, Lit, NoMemory, Rewrite};
use jd_rows::is_zero;
use jd_shifts::rotate_left;
use jd_vectors::{Lits, add_lits, choose, not_lits};

/// So many turns to the left, and the carry after them, which stays where there is none.
#[tactic(auto, using(jd_vectors::proofs::Kept::grows_trans))]
pub fn turned_left<W: Rewrite>(
    c: &mut Circuit<'_, W>,
    y: &Lits,
    carry: Lit,
    count: &Lits,
) -> Result<(Lits, Lit), NoMemory>
    requires some { 1 ≤ length y.now }
    requires word { length y.now ≤ 64 }
    requires places { length count.now ≤ 8 }
    requires first { AreOf c.old y.now }
    requires second { IsOf c.old carry }
    requires third { AreOf c.old count.now }
    requires room { length c.old.gates < 2 ^ 30 - 2 ^ 18 - 100 }
    ensures length { IfOk result (λ r. length r.0 ≡ length y.now) }
    ensures of { IfOk result (λ r. AreOf c.new r.0) }
    ensures carry { IfOk result (λ r. IsOf c.new r.1) }
    ensures turned { IfOk result (λ r. (val : ℕ → Bool) → Solves c.new val
        → number val count.now ≤ length y.now
        → (number val r.0, lit_value val r.1)
        ≡ turned_times (number val count.now) left (length y.now) (number val y.now)
        (lit_value val carry)) }
    ensures grows { Grows c.old c.new }
    ensures more { length c.new.gates ≤ length c.old.gates + 24 * length y.now + 19 }
{
    let round = rotate_left(c, y, count)?;
    let none = is_zero(c, count)?;
    let end = round.at(0);
    let after = choose(c, none, carry, end)?;
    Ok((round, after))
}

/// How many places to the left so many to the right are.
#[tactic(auto, using(jd_vectors::proofs::Kept::grows_trans))]
pub fn places_back<W: Rewrite>(
    c: &mut Circuit<'_, W>,
    size: usize,
    count: &Lits,
) -> Result<Lits, NoMemory>
    requires word { size ≤ 64 }
    requires places { length count.now ≤ 8 }
    requires of { AreOf c.old count.now }
    requires room { length c.old.gates + 40 < 2 ^ 30 }
    ensures length { IfOk result (λ r. length r ≡ 8) }
    ensures of { IfOk result (AreOf c.new) }
    ensures number { IfOk result (λ r. (val : ℕ → Bool) → Solves c.new val
        → number val count.now ≤ size
        → number val r ≡ size - number val count.now) }
    ensures grows { Grows c.old c.new }
    ensures more { length c.new.gates ≤ length c.old.gates + 40 }
{
    let all = Lits::constant(8, size as u64);
    let wide = count.resized(8);
    let other = not_lits(&wide);
    let (by, _carry) = add_lits(c, &all, &other, Lit::Const(true))?;
    Ok(by)
}

/// So many turns to the right, and the carry after them, which stays where there is none.
#[tactic(auto, using(jd_vectors::proofs::Kept::grows_trans))]
pub fn turned_right<W: Rewrite>(
    c: &mut Circuit<'_, W>,
    y: &Lits,
    carry: Lit,
    count: &Lits,
) -> Result<(Lits, Lit), NoMemory>
    requires some { 1 ≤ length y.now }
    requires word { length y.now ≤ 64 }
    requires places { length count.now ≤ 8 }
    requires first { AreOf c.old y.now }
    requires second { IsOf c.old carry }
    requires third { AreOf c.old count.now }
    requires room { length c.old.gates < 2 ^ 30 - 2 ^ 18 - 100 }
    ensures length { IfOk result (λ r. length r.0 ≡ length y.now) }
    ensures of { IfOk result (λ r. AreOf c.new r.0) }
    ensures carry { IfOk result (λ r. IsOf c.new r.1) }
    ensures turned { IfOk result (λ r. (val : ℕ → Bool) → Solves c.new val
        → number val count.now ≤ length y.now
        → (number val r.0, lit_value val r.1)
        ≡ turned_times (number val count.now) right (length y.now) (number val y.now)
        (lit_value val carry)) }
    ensures grows { Grows c.old c.new }
    ensures more { length c.new.gates ≤ length c.old.gates + 24 * length y.now + 59 }
{
    let size = y.len();
    let by = places_back(c, size, count)?;
    let round = rotate_left(c, y, &by)?;
    let none = is_zero(c, count)?;
    let end = round.at(size - 1);
    let after = choose(c, none, carry, end)?;
    Ok((round, after))
}
