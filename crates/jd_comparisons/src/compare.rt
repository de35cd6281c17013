//! Comparisons. Patterns are compared with their top bits turned, which puts the negative ones first.
ghost use Rattle.std.specs.Prelude.{◌≡◌, ℕ, ◌+◌, ◌-◌, ◌*◌, ◌^◌, ◌<◌, ◌≤◌, ◌&&◌, ◌==◌, Bool, IfOk, int_le, int_lt, length, nat_abs, nat_lt};
ghost use Rattle.hp_model.specs.Words.{value};
ghost use Rattle.jd_circuit.specs.Meaning.{lit_value};
ghost use Rattle.jd_circuit.specs.Net.{Grows, IsOf, Solves};
ghost use Rattle.jd_vectors.specs.Number.{AreOf, Inside, number};
ghost use Rattle.jd_comparisons.specs.Raised.{raised};

use hp_model::Mode;
use jd_circuit::{Circuit, Lit, NoMemory, Rewrite};
use jd_rows::{less, zero_test};
use jd_vectors::{Lits, same};

/// The word with its top bit turned.
fn raised_word(x: &Lits) -> Lits
    requires { 1 ≤ length x.now }
    ensures length { length result ≡ length x.now }
    ensures inside { (n : ℕ) → Inside n x.now → Inside n result }
    ensures number { (val : ℕ → Bool)
        → number val result ≡ raised (2 ^ (length x.now - 1)) (number val x.now) }
{
    let size = x.len();
    let mut lits = x.part(0, size - 1);
    lits.push(x.at(size - 1).opposite());
    lits
}

/// Whether the pattern of y is below that of x, both with their top bits turned.
#[tactic(auto, using(jd_vectors::proofs::Kept::grows_trans))]
fn is_lower<W: Rewrite>(c: &mut Circuit<'_, W>, y: &Lits, x: &Lits) -> Result<Lit, NoMemory>
    requires some { 1 ≤ length x.now }
    requires length { length y.now ≡ length x.now }
    requires first { AreOf c.old y.now }
    requires second { AreOf c.old x.now }
    requires room { length c.old.gates + 5 * length x.now < 2 ^ 30 }
    ensures of { IfOk result (IsOf c.new) }
    ensures meaning { IfOk result (λ l. (val : ℕ → Bool) → Solves c.new val
        → lit_value val l
        ≡ nat_lt (raised (2 ^ (length x.now - 1)) (number val y.now)) (raised (2 ^
        (length x.now - 1)) (number val x.now))) }
    ensures grows { Grows c.old c.new }
    ensures more { length c.new.gates ≤ length c.old.gates + 5 * length x.now }
{
    let lower = raised_word(y);
    let upper = raised_word(x);
    let l = less(c, &lower, &upper)?;
    Ok(l)
}

/// Whether the value of y is below that of x in two's complement.
fn is_below_in_twos<W: Rewrite>(c: &mut Circuit<'_, W>, y: &Lits, x: &Lits) -> Result<Lit, NoMemory>
    requires some { 1 ≤ length x.now }
    requires length { length y.now ≡ length x.now }
    requires first { AreOf c.old y.now }
    requires second { AreOf c.old x.now }
    requires room { length c.old.gates + 5 * length x.now < 2 ^ 30 }
    ensures of { IfOk result (IsOf c.new) }
    ensures meaning { IfOk result (λ l. (val : ℕ → Bool) → Solves c.new val → lit_value val l
        ≡ int_lt (value (length x.now) Mode.Twos (number val y.now)) (value
        (length x.now) Mode.Twos (number val x.now))) }
    ensures grows { Grows c.old c.new }
    ensures more { length c.new.gates ≤ length c.old.gates + 5 * length x.now }
{
    let l = is_lower(c, y, x)?;
    Ok(l)
}

/// Whether both values are 0.
#[tactic(auto, using(jd_vectors::proofs::Kept::grows_trans))]
fn are_zero<W: Rewrite>(
    c: &mut Circuit<'_, W>,
    mode: Mode,
    y: &Lits,
    x: &Lits,
) -> Result<Lit, NoMemory>
    requires some { 1 ≤ length x.now }
    requires word { length x.now ≤ 64 }
    requires length { length y.now ≡ length x.now }
    requires first { AreOf c.old y.now }
    requires second { AreOf c.old x.now }
    requires room { length c.old.gates + 601 < 2 ^ 30 }
    ensures of { IfOk result (IsOf c.new) }
    ensures meaning { IfOk result (λ l. (val : ℕ → Bool) → Solves c.new val → lit_value val l
        ≡ (nat_abs (value (length x.now) mode (number val y.now)) == 0
        && nat_abs (value (length x.now) mode (number val x.now)) == 0)) }
    ensures grows { Grows c.old c.new }
    ensures more { length c.new.gates ≤ length c.old.gates + 601 }
{
    let first = zero_test(c, mode, y)?;
    let second = zero_test(c, mode, x)?;
    let both = c.and(first, second)?;
    Ok(both)
}

/// Whether the value of y is below that of x in one's complement, where minus 0 isn't below 0.
#[tactic(auto, using(jd_vectors::proofs::Kept::grows_trans))]
fn is_below_in_ones<W: Rewrite>(c: &mut Circuit<'_, W>, y: &Lits, x: &Lits) -> Result<Lit, NoMemory>
    requires some { 1 ≤ length x.now }
    requires word { length x.now ≤ 64 }
    requires length { length y.now ≡ length x.now }
    requires first { AreOf c.old y.now }
    requires second { AreOf c.old x.now }
    requires room { length c.old.gates + 1000 < 2 ^ 30 }
    ensures of { IfOk result (IsOf c.new) }
    ensures meaning { IfOk result (λ l. (val : ℕ → Bool) → Solves c.new val → lit_value val l
        ≡ int_lt (value (length x.now) Mode.Ones (number val y.now)) (value
        (length x.now) Mode.Ones (number val x.now))) }
    ensures grows { Grows c.old c.new }
    ensures more { length c.new.gates ≤ length c.old.gates + 1000 }
{
    let lower = is_lower(c, y, x)?;
    let zero = are_zero(c, Mode::Ones, y, x)?;
    let l = c.and(lower, zero.opposite())?;
    Ok(l)
}

/// Whether the value of y is below that of x.
pub fn is_below<W: Rewrite>(
    c: &mut Circuit<'_, W>,
    mode: Mode,
    y: &Lits,
    x: &Lits,
) -> Result<Lit, NoMemory>
    requires some { 1 ≤ length x.now }
    requires word { length x.now ≤ 64 }
    requires length { length y.now ≡ length x.now }
    requires first { AreOf c.old y.now }
    requires second { AreOf c.old x.now }
    requires room { length c.old.gates + 1000 < 2 ^ 30 }
    ensures of { IfOk result (IsOf c.new) }
    ensures meaning { IfOk result (λ l. (val : ℕ → Bool) → Solves c.new val → lit_value val l
        ≡ int_lt (value (length x.now) mode (number val y.now)) (value (length x.now) mode
        (number val x.now))) }
    ensures grows { Grows c.old c.new }
    ensures more { length c.new.gates ≤ length c.old.gates + 1000 }
{
    match mode {
        Mode::Unsigned => less(c, y, x),
        Mode::Ones => is_below_in_ones(c, y, x),
        Mode::Twos => is_below_in_twos(c, y, x),
    }
}

/// Whether the values are equal in one's complement, where minus 0 is 0.
#[tactic(auto, using(jd_vectors::proofs::Kept::grows_trans))]
fn are_equal_in_ones<W: Rewrite>(
    c: &mut Circuit<'_, W>,
    y: &Lits,
    x: &Lits,
) -> Result<Lit, NoMemory>
    requires some { 1 ≤ length x.now }
    requires word { length x.now ≤ 64 }
    requires length { length y.now ≡ length x.now }
    requires first { AreOf c.old y.now }
    requires second { AreOf c.old x.now }
    requires room { length c.old.gates + 1000 < 2 ^ 30 }
    ensures of { IfOk result (IsOf c.new) }
    ensures meaning { IfOk result (λ l. (val : ℕ → Bool) → Solves c.new val → lit_value val l
        ≡ (int_le (value (length x.now) Mode.Ones (number val x.now)) (value
        (length x.now) Mode.Ones (number val y.now))
        && int_le (value (length x.now) Mode.Ones (number val y.now)) (value (length x.now) Mode.Ones (number val x.now)))) }
    ensures grows { Grows c.old c.new }
    ensures more { length c.new.gates ≤ length c.old.gates + 1000 }
{
    let alike = same(c, y, x)?;
    let zero = are_zero(c, Mode::Ones, y, x)?;
    let neither = c.and(alike.opposite(), zero.opposite())?;
    Ok(neither.opposite())
}

/// Whether the values of y and x are equal, which is asked as two comparisons.
pub fn are_equal<W: Rewrite>(
    c: &mut Circuit<'_, W>,
    mode: Mode,
    y: &Lits,
    x: &Lits,
) -> Result<Lit, NoMemory>
    requires some { 1 ≤ length x.now }
    requires word { length x.now ≤ 64 }
    requires length { length y.now ≡ length x.now }
    requires first { AreOf c.old y.now }
    requires second { AreOf c.old x.now }
    requires room { length c.old.gates + 1000 < 2 ^ 30 }
    ensures of { IfOk result (IsOf c.new) }
    ensures meaning { IfOk result (λ l. (val : ℕ → Bool) → Solves c.new val → lit_value val l
        ≡ (int_le (value (length x.now) mode (number val x.now)) (value (length x.now) mode
        (number val y.now))
        && int_le (value (length x.now) mode (number val y.now)) (value (length x.now) mode (number val x.now)))) }
    ensures grows { Grows c.old c.new }
    ensures more { length c.new.gates ≤ length c.old.gates + 1000 }
{
    match mode {
        Mode::Unsigned => {
            let l = same(c, y, x)?;
            Ok(l)
        }
        Mode::Ones => are_equal_in_ones(c, y, x),
        Mode::Twos => {
            let l = same(c, y, x)?;
            Ok(l)
        }
    }
}
