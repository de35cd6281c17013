//! What operations ask of words.
ghost use Rattle.std.specs.Prelude.{◌≡◌, ℕ, ◌+◌, ◌-◌, ◌*◌, ◌^◌, ◌<◌, ◌≤◌, ◌==◌, Bool, length, IfOk, not, nat_lt, nat_le};
ghost use Rattle.hp_model.specs.Words.{magnitude};
ghost use Rattle.jd_circuit.specs.Meaning.{lit_value};
ghost use Rattle.jd_circuit.specs.Net.{IsOf, Grows, Solves, variables};
ghost use Rattle.jd_vectors.specs.Number.{number, AreOf, Inside};

use crate::magnitudes::magnitude;
use crate::words::less;
use hp_model::Mode;
use jd_circuit::{Circuit, Lit, NoMemory, Rewrite};
use jd_vectors::Lits;

/// Whether a number is above its own length.
pub fn is_above_size<W: Rewrite>(c: &mut Circuit<'_, W>, m: &Lits) -> Result<Lit, NoMemory>
    requires some { 1 ≤ length m.now }
    requires word { length m.now ≤ 64 }
    requires of { AreOf c.old m.now }
    requires room { length c.old.gates + 5 * length m.now < 2 ^ 30 }
    ensures of { IfOk result (IsOf c.new) }
    ensures meaning { IfOk result (λ l. (val : ℕ → Bool) → Solves c.new val
        → lit_value val l ≡ nat_lt (length m.now) (number val m.now)) }
    ensures grows { Grows c.old c.new }
    ensures more { length c.new.gates ≤ length c.old.gates + 5 * length m.now }
{
    let size = size_in_word(m);
    let l = less(c, &size, m)?;
    Ok(l)
}

/// Whether a number is its own length or more.
pub fn is_size_or_more<W: Rewrite>(c: &mut Circuit<'_, W>, m: &Lits) -> Result<Lit, NoMemory>
    requires some { 1 ≤ length m.now }
    requires word { length m.now ≤ 64 }
    requires of { AreOf c.old m.now }
    requires room { length c.old.gates + 5 * length m.now < 2 ^ 30 }
    ensures of { IfOk result (IsOf c.new) }
    ensures meaning { IfOk result (λ l. (val : ℕ → Bool) → Solves c.new val
        → lit_value val l ≡ nat_le (length m.now) (number val m.now)) }
    ensures grows { Grows c.old c.new }
    ensures more { length c.new.gates ≤ length c.old.gates + 5 * length m.now }
{
    let size = size_in_word(m);
    let l = less(c, m, &size)?;
    Ok(l.opposite())
}

/// The length of a list of literals as a number of that length.
fn size_in_word(m: &Lits) -> Lits
    requires { length m.now ≤ 64 }
    ensures length { length result ≡ length m.now }
    ensures inside { (n : ℕ) → Inside n result }
    ensures number { (val : ℕ → Bool) → number val result ≡ length m.now }
{
    let size = m.len();
    Lits::constant(size as u8, size as u64)
}

/// Whether the magnitude of a word is above the word size.
#[tactic(auto, using(jd_vectors::proofs::Kept::grows_trans))]
pub fn magnitude_is_above_size<W: Rewrite>(
    c: &mut Circuit<'_, W>,
    mode: Mode,
    x: &Lits,
) -> Result<Lit, NoMemory>
    requires some { 1 ≤ length x.now }
    requires word { length x.now ≤ 64 }
    requires of { AreOf c.old x.now }
    requires room { length c.old.gates + 13 * length x.now < 2 ^ 30 }
    ensures of { IfOk result (IsOf c.new) }
    ensures meaning { IfOk result (λ l. (val : ℕ → Bool) → Solves c.new val
        → lit_value val l
        ≡ nat_lt (length x.now) (magnitude (length x.now) mode (number val x.now))) }
    ensures grows { Grows c.old c.new }
    ensures more { length c.new.gates ≤ length c.old.gates + 13 * length x.now }
{
    let (_sign, magnitude) = magnitude(c, mode, x)?;
    let l = is_above_size(c, &magnitude)?;
    Ok(l)
}

/// Whether the magnitude of a word is the word size or more.
#[tactic(auto, using(jd_vectors::proofs::Kept::grows_trans))]
pub fn magnitude_is_size_or_more<W: Rewrite>(
    c: &mut Circuit<'_, W>,
    mode: Mode,
    x: &Lits,
) -> Result<Lit, NoMemory>
    requires some { 1 ≤ length x.now }
    requires word { length x.now ≤ 64 }
    requires of { AreOf c.old x.now }
    requires room { length c.old.gates + 13 * length x.now < 2 ^ 30 }
    ensures of { IfOk result (IsOf c.new) }
    ensures meaning { IfOk result (λ l. (val : ℕ → Bool) → Solves c.new val
        → lit_value val l
        ≡ nat_le (length x.now) (magnitude (length x.now) mode (number val x.now))) }
    ensures grows { Grows c.old c.new }
    ensures more { length c.new.gates ≤ length c.old.gates + 13 * length x.now }
{
    let (_sign, magnitude) = magnitude(c, mode, x)?;
    let l = is_size_or_more(c, &magnitude)?;
    Ok(l)
}

/// Whether a number of 64 literals is a count or above it.
pub fn is_at_least<W: Rewrite>(
    c: &mut Circuit<'_, W>,
    m: &Lits,
    count: u64,
) -> Result<Lit, NoMemory>
    requires word { length m.now ≡ 64 }
    requires of { AreOf c.old m.now }
    requires room { length c.old.gates + 320 < 2 ^ 30 }
    ensures of { IfOk result (IsOf c.new) }
    ensures meaning { IfOk result (λ l. (val : ℕ → Bool) → Solves c.new val
        → lit_value val l ≡ nat_le count (number val m.now)) }
    ensures grows { Grows c.old c.new }
    ensures more { length c.new.gates ≤ length c.old.gates + 320 }
{
    let bound = Lits::constant(64, count);
    let l = less(c, m, &bound)?;
    Ok(l.opposite())
}
