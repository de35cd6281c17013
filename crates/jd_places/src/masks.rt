//! Masks, single bits, counts and left justification. The number of places stands in at most 8
//! literals.
ghost use Rattle.std.specs.Prelude.{◌≡◌, ℕ, ◌+◌, ◌-◌, ◌*◌, ◌^◌, ◌<◌, ◌≤◌, Bool, length, IfOk};
ghost use Rattle.hp_model.specs.Words.{bit};
ghost use Rattle.hp_model.specs.WordOperations.{mask_left_pattern, mask_right_pattern, with_bit, without_bit, ones_below, left_shifts};
ghost use Rattle.jd_circuit.specs.Meaning.{lit_value};
ghost use Rattle.jd_circuit.specs.Net.{IsOf, Grows, Solves, variables};
ghost use Rattle.jd_vectors.specs.Number.{number, AreOf};

use crate::turns::places_back;
use jd_circuit::{Circuit, Lit, NoMemory, Rewrite};
use jd_rows::{is_zero, low_ones, power};
use jd_shifts::{left_justify, ones, shift_left};
use jd_vectors::{Bitwise, Lits, join_lits, not_lits};

/// All ones, moved up so many places.
fn upper_ones<W: Rewrite>(
    c: &mut Circuit<'_, W>,
    size: usize,
    places: &Lits,
) -> Result<Lits, NoMemory>
    requires some { 1 ≤ size }
    requires word { size ≤ 64 }
    requires places { length places.now ≤ 8 }
    requires of { AreOf c.old places.now }
    requires room { length c.old.gates < 2 ^ 30 - 2 ^ 18 }
    ensures length { IfOk result (λ r. length r ≡ size) }
    ensures of { IfOk result (AreOf c.new) }
    ensures number { IfOk result (λ r. (val : ℕ → Bool) → Solves c.new val
        → number val places.now ≤ size
        → number val r ≡ 2 ^ size - 2 ^ number val places.now) }
    ensures grows { Grows c.old c.new }
    ensures more { length c.new.gates ≤ length c.old.gates + 24 * size }
{
    let all = low_ones(size, size);
    let r = shift_left(c, &all, places)?;
    Ok(r)
}

/// The word whose lowest m bits alone are 1, at most 24 gates a bit: MASKR of the HP-16C.
pub fn mask_right<W: Rewrite>(
    c: &mut Circuit<'_, W>,
    size: usize,
    m: &Lits,
) -> Result<Lits, NoMemory>
    requires some { 1 ≤ size }
    requires word { size ≤ 64 }
    requires places { length m.now ≤ 8 }
    requires of { AreOf c.old m.now }
    requires room { length c.old.gates < 2 ^ 30 - 2 ^ 18 }
    ensures length { IfOk result (λ r. length r ≡ size) }
    ensures of { IfOk result (AreOf c.new) }
    ensures number { IfOk result (λ r. (val : ℕ → Bool) → Solves c.new val → number val m.now ≤ size
        → number val r ≡ mask_right_pattern (number val m.now)) }
    ensures grows { Grows c.old c.new }
    ensures more { length c.new.gates ≤ length c.old.gates + 24 * size }
{
    let upper = upper_ones(c, size, m)?;
    Ok(not_lits(&upper))
}

/// The word whose highest m bits alone are 1, at most 24 gates a bit and 40 more: MASKL of the HP-16C.
#[tactic(auto, using(jd_vectors::proofs::Kept::grows_trans))]
pub fn mask_left<W: Rewrite>(
    c: &mut Circuit<'_, W>,
    size: usize,
    m: &Lits,
) -> Result<Lits, NoMemory>
    requires some { 1 ≤ size }
    requires word { size ≤ 64 }
    requires places { length m.now ≤ 8 }
    requires of { AreOf c.old m.now }
    requires room { length c.old.gates < 2 ^ 30 - 2 ^ 18 - 40 }
    ensures length { IfOk result (λ r. length r ≡ size) }
    ensures of { IfOk result (AreOf c.new) }
    ensures number { IfOk result (λ r. (val : ℕ → Bool) → Solves c.new val → number val m.now ≤ size
        → number val r ≡ mask_left_pattern size (number val m.now)) }
    ensures grows { Grows c.old c.new }
    ensures more { length c.new.gates ≤ length c.old.gates + 24 * size + 40 }
{
    let by = places_back(c, size, m)?;
    let upper = upper_ones(c, size, &by)?;
    Ok(upper)
}

/// The number whose bit m alone is 1.
fn one_at<W: Rewrite>(c: &mut Circuit<'_, W>, size: usize, m: &Lits) -> Result<Lits, NoMemory>
    requires some { 1 ≤ size }
    requires word { size ≤ 64 }
    requires places { length m.now ≤ 8 }
    requires of { AreOf c.old m.now }
    requires room { length c.old.gates < 2 ^ 30 - 2 ^ 18 }
    ensures length { IfOk result (λ r. length r ≡ size) }
    ensures of { IfOk result (AreOf c.new) }
    ensures number { IfOk result (λ r. (val : ℕ → Bool) → Solves c.new val → number val m.now < size
        → number val r ≡ 2 ^ number val m.now) }
    ensures grows { Grows c.old c.new }
    ensures more { length c.new.gates ≤ length c.old.gates + 24 * size }
{
    let one = power(0, size);
    let r = shift_left(c, &one, m)?;
    Ok(r)
}

/// Y with bit m set, at most 25 gates a bit: SB of the HP-16C.
#[tactic(auto, using(jd_vectors::proofs::Kept::grows_trans))]
pub fn set_bit<W: Rewrite>(c: &mut Circuit<'_, W>, y: &Lits, m: &Lits) -> Result<Lits, NoMemory>
    requires some { 1 ≤ length y.now }
    requires word { length y.now ≤ 64 }
    requires places { length m.now ≤ 8 }
    requires first { AreOf c.old y.now }
    requires second { AreOf c.old m.now }
    requires room { length c.old.gates < 2 ^ 30 - 2 ^ 18 - 100 }
    ensures length { IfOk result (λ r. length r ≡ length y.now) }
    ensures of { IfOk result (AreOf c.new) }
    ensures number { IfOk result (λ r. (val : ℕ → Bool) → Solves c.new val
        → number val m.now < length y.now
        → number val r ≡ with_bit (number val y.now) (number val m.now)) }
    ensures grows { Grows c.old c.new }
    ensures more { length c.new.gates ≤ length c.old.gates + 25 * length y.now }
{
    let one = one_at(c, y.len(), m)?;
    let r = join_lits(c, Bitwise::Or, y, &one)?;
    Ok(r)
}

/// Y with bit m cleared, at most 25 gates a bit: CB of the HP-16C.
#[tactic(auto, using(jd_vectors::proofs::Kept::grows_trans))]
pub fn clear_bit<W: Rewrite>(c: &mut Circuit<'_, W>, y: &Lits, m: &Lits) -> Result<Lits, NoMemory>
    requires some { 1 ≤ length y.now }
    requires word { length y.now ≤ 64 }
    requires places { length m.now ≤ 8 }
    requires first { AreOf c.old y.now }
    requires second { AreOf c.old m.now }
    requires room { length c.old.gates < 2 ^ 30 - 2 ^ 18 - 100 }
    ensures length { IfOk result (λ r. length r ≡ length y.now) }
    ensures of { IfOk result (AreOf c.new) }
    ensures number { IfOk result (λ r. (val : ℕ → Bool) → Solves c.new val
        → number val m.now < length y.now
        → number val r ≡ without_bit (number val y.now) (number val m.now)) }
    ensures grows { Grows c.old c.new }
    ensures more { length c.new.gates ≤ length c.old.gates + 25 * length y.now }
{
    let one = one_at(c, y.len(), m)?;
    let others = not_lits(&one);
    let r = join_lits(c, Bitwise::And, y, &others)?;
    Ok(r)
}

/// Whether bit m of y is 1.
#[tactic(auto, using(jd_vectors::proofs::Kept::grows_trans))]
pub fn bit_is_set<W: Rewrite>(c: &mut Circuit<'_, W>, y: &Lits, m: &Lits) -> Result<Lit, NoMemory>
    requires some { 1 ≤ length y.now }
    requires word { length y.now ≤ 64 }
    requires places { length m.now ≤ 8 }
    requires first { AreOf c.old y.now }
    requires second { AreOf c.old m.now }
    requires room { length c.old.gates < 2 ^ 30 - 2 ^ 18 - 300 }
    ensures of { IfOk result (IsOf c.new) }
    ensures meaning { IfOk result (λ l. (val : ℕ → Bool) → Solves c.new val
        → number val m.now < length y.now
        → lit_value val l ≡ bit (number val y.now) (number val m.now)) }
    ensures grows { Grows c.old c.new }
    ensures more { length c.new.gates ≤ length c.old.gates + 27 * length y.now }
{
    let one = one_at(c, y.len(), m)?;
    let part = join_lits(c, Bitwise::And, &one, y)?;
    let none = is_zero(c, &part)?;
    Ok(none.opposite())
}

/// How many bits of a word are 1, in 8 literals, at most 40 gates a bit: #B of the HP-16C.
pub fn count_of_ones<W: Rewrite>(c: &mut Circuit<'_, W>, x: &Lits) -> Result<Lits, NoMemory>
    requires of { AreOf c.old x.now }
    requires room { length c.old.gates < 2 ^ 30 - 2 ^ 18 }
    ensures length { IfOk result (λ r. length r ≡ 8) }
    ensures of { IfOk result (AreOf c.new) }
    ensures number { IfOk result (λ r. (val : ℕ → Bool) → Solves c.new val
        → number val r ≡ ones_below (length x.now) (number val x.now)) }
    ensures grows { Grows c.old c.new }
    ensures more { length c.new.gates ≤ length c.old.gates + 40 * length x.now }
{
    let count = ones(c, x)?;
    Ok(count)
}

/// How many places a word moves up until its highest bit is 1 (none where it is 0), in 7 literals, and
/// the word so moved, at most 35 gates a bit and 21 more: LJ of the HP-16C.
pub fn justified<W: Rewrite>(c: &mut Circuit<'_, W>, x: &Lits) -> Result<(Lits, Lits), NoMemory>
    requires some { 1 ≤ length x.now }
    requires of { AreOf c.old x.now }
    requires room { length c.old.gates < 2 ^ 30 - 2 ^ 18 }
    ensures count_length { IfOk result (λ r. length r.0 ≡ 7) }
    ensures length { IfOk result (λ r. length r.1 ≡ length x.now) }
    ensures count { IfOk result (λ r. AreOf c.new r.0) }
    ensures of { IfOk result (λ r. AreOf c.new r.1) }
    ensures places { IfOk result (λ r. (val : ℕ → Bool) → Solves c.new val
        → number val r.0 ≡ left_shifts (length x.now) (number val x.now)) }
    ensures word { IfOk result (λ r. (val : ℕ → Bool) → Solves c.new val
        → number val r.1 ≡ number val x.now * 2 ^ left_shifts (length x.now) (number val x.now)) }
    ensures grows { Grows c.old c.new }
    ensures more { length c.new.gates ≤ length c.old.gates + 35 * length x.now + 21 }
{
    let (count, word) = left_justify(c, x)?;
    Ok((count, word))
}
