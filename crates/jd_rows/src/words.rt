//! Words of literals: differences, tests and top bits.
ghost use Rattle.std.specs.Prelude.{◌≡◌, ℕ, ◌+◌, ◌-◌, ◌*◌, ◌^◌, ◌<◌, ◌≤◌, Bool, length, IfOk, not, nat_le, nat_lt, nat_abs, ◌==◌};
ghost use Rattle.jd_circuit.specs.Meaning.{lit_value};
ghost use Rattle.jd_circuit.specs.Net.{IsOf, IsLit, Grows, Solves};
ghost use Rattle.hp_model.specs.Words.{value};
ghost use Rattle.hp_model.specs.WordOperations.{difference_pattern};
ghost use Rattle.jd_vectors.specs.Number.{number, bit, AreOf, Inside};

use crate::constants::zeros;
use hp_model::Mode;
use jd_circuit::{Circuit, Lit, NoMemory, Rewrite};
use jd_vectors::{Lits, add_lits, not_lits, same};

/// The top literal.
pub fn top(a: &Lits) -> Lit
    requires { 1 ≤ length a.now }
    ensures of { (n : ℕ) → Inside n a.now → IsLit n result }
    ensures meaning { (val : ℕ → Bool) → lit_value val result
        ≡ nat_le (2 ^ (length a.now - 1)) (number val a.now) }
{
    a.at(a.len() - 1)
}

/// Whether a pattern is 0.
pub fn is_zero<W: Rewrite>(c: &mut Circuit<'_, W>, x: &Lits) -> Result<Lit, NoMemory>
    requires of { AreOf c.old x.now }
    requires room { length c.old.gates + 2 * length x.now < 2 ^ 30 }
    ensures of { IfOk result (IsOf c.new) }
    ensures meaning { IfOk result (λ l. (val : ℕ → Bool) → Solves c.new val
        → lit_value val l ≡ (number val x.now == 0)) }
    ensures grows { Grows c.old c.new }
    ensures more { length c.new.gates ≤ length c.old.gates + 2 * length x.now }
{
    let none = zeros(x.len());
    let l = same(c, x, &none)?;
    Ok(l)
}

/// Whether a pattern's value is 0 in one's complement, where it may be minus 0.
#[tactic(auto, using(jd_vectors::proofs::Kept::grows_trans))]
fn is_zero_of_ones<W: Rewrite>(c: &mut Circuit<'_, W>, x: &Lits) -> Result<Lit, NoMemory>
    requires some { 1 ≤ length x.now }
    requires word { length x.now ≤ 64 }
    requires of { AreOf c.old x.now }
    requires room { length c.old.gates + 300 < 2 ^ 30 }
    ensures of { IfOk result (IsOf c.new) }
    ensures meaning { IfOk result (λ l. (val : ℕ → Bool) → Solves c.new val
        → lit_value val l ≡ (nat_abs (value (length x.now) Mode.Ones (number val x.now)) == 0)) }
    ensures grows { Grows c.old c.new }
    ensures more { length c.new.gates ≤ length c.old.gates + 300 }
{
    let plus = is_zero(c, x)?;
    let turned = not_lits(x);
    let minus = is_zero(c, &turned)?;
    let neither = c.and(plus.opposite(), minus.opposite())?;
    Ok(neither.opposite())
}

/// Whether a pattern's value is 0 in two's complement.
fn is_zero_of_twos<W: Rewrite>(c: &mut Circuit<'_, W>, x: &Lits) -> Result<Lit, NoMemory>
    requires some { 1 ≤ length x.now }
    requires word { length x.now ≤ 64 }
    requires of { AreOf c.old x.now }
    requires room { length c.old.gates + 300 < 2 ^ 30 }
    ensures of { IfOk result (IsOf c.new) }
    ensures meaning { IfOk result (λ l. (val : ℕ → Bool) → Solves c.new val
        → lit_value val l ≡ (nat_abs (value (length x.now) Mode.Twos (number val x.now)) == 0)) }
    ensures grows { Grows c.old c.new }
    ensures more { length c.new.gates ≤ length c.old.gates + 300 }
{
    let l = is_zero(c, x)?;
    Ok(l)
}

/// Whether the value of a pattern is 0.
pub fn zero_test<W: Rewrite>(c: &mut Circuit<'_, W>, mode: Mode, x: &Lits) -> Result<Lit, NoMemory>
    requires some { 1 ≤ length x.now }
    requires word { length x.now ≤ 64 }
    requires of { AreOf c.old x.now }
    requires room { length c.old.gates + 300 < 2 ^ 30 }
    ensures of { IfOk result (IsOf c.new) }
    ensures meaning { IfOk result (λ l. (val : ℕ → Bool) → Solves c.new val
        → lit_value val l ≡ (nat_abs (value (length x.now) mode (number val x.now)) == 0)) }
    ensures grows { Grows c.old c.new }
    ensures more { length c.new.gates ≤ length c.old.gates + 300 }
{
    match mode {
        Mode::Ones => is_zero_of_ones(c, x),
        Mode::Unsigned => {
            let l = is_zero(c, x)?;
            Ok(l)
        }
        Mode::Twos => is_zero_of_twos(c, x),
    }
}

/// One number less another, and whether it isn't below it.
pub fn minus<W: Rewrite>(
    c: &mut Circuit<'_, W>,
    y: &Lits,
    x: &Lits,
) -> Result<(Lits, Lit), NoMemory>
    requires length { length y.now ≡ length x.now }
    requires first { AreOf c.old y.now }
    requires second { AreOf c.old x.now }
    requires room { length c.old.gates + 5 * length y.now < 2 ^ 30 }
    ensures length { IfOk result (λ r. length r.0 ≡ length x.now) }
    ensures of { IfOk result (λ r. AreOf c.new r.0) }
    ensures out { IfOk result (λ r. IsOf c.new r.1) }
    ensures number { IfOk result (λ r. (val : ℕ → Bool) → Solves c.new val
        → number val r.0 + 2 ^ length x.now * bit (lit_value val r.1) + number val x.now
        ≡ number val y.now + 2 ^ length x.now) }
    ensures grows { Grows c.old c.new }
    ensures more { length c.new.gates ≤ length c.old.gates + 5 * length x.now }
{
    let turned = not_lits(x);
    let (difference, out) = add_lits(c, y, &turned, Lit::Const(true))?;
    Ok((difference, out))
}

/// Whether one number is below another.
pub fn less<W: Rewrite>(c: &mut Circuit<'_, W>, a: &Lits, b: &Lits) -> Result<Lit, NoMemory>
    requires length { length a.now ≡ length b.now }
    requires first { AreOf c.old a.now }
    requires second { AreOf c.old b.now }
    requires room { length c.old.gates + 5 * length a.now < 2 ^ 30 }
    ensures of { IfOk result (IsOf c.new) }
    ensures meaning { IfOk result (λ l. (val : ℕ → Bool) → Solves c.new val
        → lit_value val l ≡ nat_lt (number val a.now) (number val b.now)) }
    ensures grows { Grows c.old c.new }
    ensures more { length c.new.gates ≤ length c.old.gates + 5 * length a.now }
{
    let (_, out) = minus(c, a, b)?;
    Ok(out.opposite())
}

/// The difference of two words in unsigned mode and in two's complement.
fn difference_around<W: Rewrite>(
    c: &mut Circuit<'_, W>,
    y: &Lits,
    x: &Lits,
) -> Result<Lits, NoMemory>
    requires length { length y.now ≡ length x.now }
    requires first { AreOf c.old y.now }
    requires second { AreOf c.old x.now }
    requires room { length c.old.gates + 10 * length y.now < 2 ^ 30 }
    ensures length { IfOk result (λ r. length r ≡ length x.now) }
    ensures of { IfOk result (AreOf c.new) }
    ensures number { IfOk result (λ r. (val : ℕ → Bool) → Solves c.new val
        → number val r
        ≡ difference_pattern (length x.now) Mode.Twos (number val y.now) (number val x.now)) }
    ensures grows { Grows c.old c.new }
    ensures more { length c.new.gates ≤ length c.old.gates + 10 * length x.now }
{
    let (difference, _) = minus(c, y, x)?;
    Ok(difference)
}

/// The difference of two words in one's complement: without the borrow, unless there is none.
#[tactic(auto, using(jd_vectors::proofs::Kept::grows_trans))]
fn difference_ones<W: Rewrite>(c: &mut Circuit<'_, W>, y: &Lits, x: &Lits) -> Result<Lits, NoMemory>
    requires length { length y.now ≡ length x.now }
    requires first { AreOf c.old y.now }
    requires second { AreOf c.old x.now }
    requires room { length c.old.gates + 10 * length y.now < 2 ^ 30 }
    ensures length { IfOk result (λ r. length r ≡ length x.now) }
    ensures of { IfOk result (AreOf c.new) }
    ensures number { IfOk result (λ r. (val : ℕ → Bool) → Solves c.new val
        → number val r
        ≡ difference_pattern (length x.now) Mode.Ones (number val y.now) (number val x.now)) }
    ensures grows { Grows c.old c.new }
    ensures more { length c.new.gates ≤ length c.old.gates + 10 * length x.now }
{
    let (_, whole) = minus(c, y, x)?;
    let turned = not_lits(x);
    let (difference, _) = add_lits(c, y, &turned, whole)?;
    Ok(difference)
}

/// The difference of two words.
pub fn difference_pattern<W: Rewrite>(
    c: &mut Circuit<'_, W>,
    mode: Mode,
    y: &Lits,
    x: &Lits,
) -> Result<Lits, NoMemory>
    requires length { length y.now ≡ length x.now }
    requires first { AreOf c.old y.now }
    requires second { AreOf c.old x.now }
    requires room { length c.old.gates + 10 * length y.now < 2 ^ 30 }
    ensures length { IfOk result (λ r. length r ≡ length x.now) }
    ensures of { IfOk result (AreOf c.new) }
    ensures number { IfOk result (λ r. (val : ℕ → Bool) → Solves c.new val
        → number val r
        ≡ difference_pattern (length x.now) mode (number val y.now) (number val x.now)) }
    ensures grows { Grows c.old c.new }
    ensures more { length c.new.gates ≤ length c.old.gates + 10 * length x.now }
{
    match mode {
        Mode::Ones => difference_ones(c, y, x),
        Mode::Twos => difference_around(c, y, x),
        Mode::Unsigned => difference_around(c, y, x),
    }
}
