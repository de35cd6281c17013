// Turns through the carry.
ghost use Rattle.std.specs.Prelude.{◌≡◌, ℕ, ◌+◌, ◌-◌, ◌*◌, ◌^◌, ◌<◌, ◌≤◌, Bool, length, IfOk};
ghost use Rattle.jd_circuit.specs.Meaning.{lit_value};
ghost use Rattle.jd_circuit.specs.Net.{Net, IsOf, Grows, Solves};
ghost use Rattle.jd_vectors.specs.Number.{number, AreOf};
ghost use Rattle.hp_model.specs.WordOperations.{turned_times};
ghost use Rattle.hp_model.specs.Operations.{left_carry, right_carry};

use jd_circuit::{Circuit, Lit, NoMemory, Rewrite};
use jd_shifts::rotate_left;
use jd_vectors::{Lits, add_lits, not_lits};

/// The word and the carry after so many turns to the left, where these are no more than the word has bits.
#[tactic(auto, using(crate::proofs::Places::grows_trans))]
pub fn turn_left_with_carry<W: Rewrite>(
    c: &mut Circuit<'_, W>,
    y: &Lits,
    carry: Lit,
    count: &Lits,
) -> Result<(Lits, Lit), NoMemory>
    requires some { 1 ≤ length y.now }
    requires word { length y.now ≤ 64 }
    requires places { length count.now ≤ 8 }
    requires first { AreOf c.old y.now }
    requires second { IsOf c.old carry }
    requires third { AreOf c.old count.now }
    requires room { length c.old.gates < 2 ^ 30 - 2 ^ 18 }
    ensures length { IfOk result (λ r. length r.0 ≡ length y.now) }
    ensures of { IfOk result (λ r. AreOf c.new r.0) }
    ensures carry { IfOk result (λ r. IsOf c.new r.1) }
    ensures turned { IfOk result (λ r. (val : ℕ → Bool) → Solves c.new val
        → number val count.now ≤ length y.now
        → (number val r.0, lit_value val r.1)
        ≡ turned_times (number val count.now) left_carry (length y.now) (number val y.now)
        (lit_value val carry)) }
    ensures grows { Grows c.old c.new }
    ensures more { length c.new.gates ≤ length c.old.gates + 24 * (length y.now + 1) }
{
    let size = y.len();
    let mut whole = y.copy();
    whole.push(carry);
    let round = rotate_left(c, &whole, count)?;
    Ok((round.part(0, size), round.at(size)))
}

/// The same to the right.
#[tactic(auto, using(crate::proofs::Places::grows_trans))]
pub fn turn_right_with_carry<W: Rewrite>(
    c: &mut Circuit<'_, W>,
    y: &Lits,
    carry: Lit,
    count: &Lits,
) -> Result<(Lits, Lit), NoMemory>
    requires some { 1 ≤ length y.now }
    requires word { length y.now ≤ 64 }
    requires places { length count.now ≤ 8 }
    requires first { AreOf c.old y.now }
    requires second { IsOf c.old carry }
    requires third { AreOf c.old count.now }
    requires room { length c.old.gates < 2 ^ 30 - 2 ^ 18 - 40 }
    ensures length { IfOk result (λ r. length r.0 ≡ length y.now) }
    ensures of { IfOk result (λ r. AreOf c.new r.0) }
    ensures carry { IfOk result (λ r. IsOf c.new r.1) }
    ensures turned { IfOk result (λ r. (val : ℕ → Bool) → Solves c.new val
        → number val count.now ≤ length y.now
        → (number val r.0, lit_value val r.1)
        ≡ turned_times (number val count.now) right_carry (length y.now) (number val y.now)
        (lit_value val carry)) }
    ensures grows { Grows c.old c.new }
    ensures more { length c.new.gates ≤ length c.old.gates + 24 * (length y.now + 1) + 40 }
{
    let size = y.len();
    let mut whole = y.copy();
    whole.push(carry);
    let all = Lits::constant(8, size as u64 + 1);
    let wide = count.resized(8);
    let (by, _carry) = add_lits(c, &all, &not_lits(&wide), Lit::Const(true))?;
    let round = rotate_left(c, &whole, &by)?;
    Ok((round.part(0, size), round.at(size)))
}
