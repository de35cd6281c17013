//! Words as magnitudes with a sign, and back.
ghost use Rattle.std.specs.Prelude.{◌≡◌, ℕ, ◌+◌, ◌-◌, ◌*◌, ◌^◌, ◌<◌, ◌≤◌, Bool, not, ◌&&◌, ◌==◌, length, IfOk, false, if◌then◌else◌};
ghost use Rattle.hp_model.specs.Words.{value, low, fits};
ghost use Rattle.hp_model.specs.WordOperations.{negation_pattern, ranged};
ghost use Rattle.jd_circuit.specs.Meaning.{lit_value};
ghost use Rattle.jd_circuit.specs.Net.{IsOf, Grows, Solves, variables};
ghost use Rattle.jd_vectors.specs.Number.{number, AreOf};
ghost use Rattle.jd_rows.specs.Answers.{with_sign, shows_minus, answer_on, AnswerFits, is_false};

use crate::answer::SymAnswer;
use crate::constants::{greatest, least};
use crate::words::{is_zero, top};
use hp_model::Mode;
use jd_circuit::{Circuit, Lit, NoMemory, Rewrite};
use jd_shifts::{less, negate};
use jd_vectors::{Lits, not_lits, select};

/// The pattern of the negative number.
pub fn negative<W: Rewrite>(c: &mut Circuit<'_, W>, mode: Mode, x: &Lits) -> Result<Lits, NoMemory>
    requires of { AreOf c.old x.now }
    requires room { length c.old.gates + 5 * length x.now < 2 ^ 30 }
    ensures length { IfOk result (λ r. length r ≡ length x.now) }
    ensures of { IfOk result (AreOf c.new) }
    ensures number { IfOk result (λ r. (val : ℕ → Bool) → Solves c.new val
        → number val r ≡ negation_pattern (length x.now) mode (number val x.now)) }
    ensures grows { Grows c.old c.new }
    ensures more { length c.new.gates ≤ length c.old.gates + 5 * length x.now }
{
    match mode {
        Mode::Unsigned => negate(c, x),
        Mode::Twos => negate(c, x),
        Mode::Ones => Ok(not_lits(x)),
    }
}

/// The magnitude by the top bit.
#[tactic(auto, using(jd_vectors::proofs::Kept::grows_trans))]
fn by_top<W: Rewrite>(
    c: &mut Circuit<'_, W>,
    mode: Mode,
    x: &Lits,
    sign: Lit,
) -> Result<Lits, NoMemory>
    requires of { AreOf c.old x.now }
    requires sign { IsOf c.old sign }
    requires room { length c.old.gates + 8 * length x.now < 2 ^ 30 }
    ensures length { IfOk result (λ r. length r ≡ length x.now) }
    ensures of { IfOk result (AreOf c.new) }
    ensures number { IfOk result (λ r. (val : ℕ → Bool) → Solves c.new val
        → number val r
        ≡ (if lit_value val sign then negation_pattern (length x.now) mode
        (number val x.now) else number val x.now)) }
    ensures grows { Grows c.old c.new }
    ensures more { length c.new.gates ≤ length c.old.gates + 8 * length x.now }
{
    let other = negative(c, mode, x)?;
    let chosen = select(c, sign, &other, x)?;
    Ok(chosen)
}

/// Sign and magnitude in one's complement.
#[tactic(auto, using(jd_vectors::proofs::Kept::grows_trans))]
fn magnitude_of_ones<W: Rewrite>(c: &mut Circuit<'_, W>, x: &Lits) -> Result<(Lit, Lits), NoMemory>
    requires some { 1 ≤ length x.now }
    requires of { AreOf c.old x.now }
    requires room { length c.old.gates + 8 * length x.now < 2 ^ 30 }
    ensures length { IfOk result (λ r. length r.1 ≡ length x.now) }
    ensures sign { IfOk result (λ r. IsOf c.new r.0) }
    ensures of { IfOk result (λ r. AreOf c.new r.1) }
    ensures value { IfOk result (λ r. (val : ℕ → Bool) → Solves c.new val
        → value (length x.now) Mode.Ones (number val x.now)
        ≡ with_sign (lit_value val r.0) (number val r.1)) }
    ensures grows { Grows c.old c.new }
    ensures more { length c.new.gates ≤ length c.old.gates + 8 * length x.now }
{
    let sign = top(x);
    let chosen = by_top(c, Mode::Ones, x, sign)?;
    Ok((sign, chosen))
}

/// Sign and magnitude in two's complement.
#[tactic(auto, using(jd_vectors::proofs::Kept::grows_trans))]
fn magnitude_of_twos<W: Rewrite>(c: &mut Circuit<'_, W>, x: &Lits) -> Result<(Lit, Lits), NoMemory>
    requires some { 1 ≤ length x.now }
    requires of { AreOf c.old x.now }
    requires room { length c.old.gates + 8 * length x.now < 2 ^ 30 }
    ensures length { IfOk result (λ r. length r.1 ≡ length x.now) }
    ensures sign { IfOk result (λ r. IsOf c.new r.0) }
    ensures of { IfOk result (λ r. AreOf c.new r.1) }
    ensures value { IfOk result (λ r. (val : ℕ → Bool) → Solves c.new val
        → value (length x.now) Mode.Twos (number val x.now)
        ≡ with_sign (lit_value val r.0) (number val r.1)) }
    ensures grows { Grows c.old c.new }
    ensures more { length c.new.gates ≤ length c.old.gates + 8 * length x.now }
{
    let sign = top(x);
    let chosen = by_top(c, Mode::Twos, x, sign)?;
    Ok((sign, chosen))
}

/// Sign and magnitude of a word's value; a sign before 0 is minus 0.
pub fn magnitude<W: Rewrite>(
    c: &mut Circuit<'_, W>,
    mode: Mode,
    x: &Lits,
) -> Result<(Lit, Lits), NoMemory>
    requires some { 1 ≤ length x.now }
    requires of { AreOf c.old x.now }
    requires room { length c.old.gates + 8 * length x.now < 2 ^ 30 }
    ensures length { IfOk result (λ r. length r.1 ≡ length x.now) }
    ensures sign { IfOk result (λ r. IsOf c.new r.0) }
    ensures of { IfOk result (λ r. AreOf c.new r.1) }
    ensures value { IfOk result (λ r. (val : ℕ → Bool) → Solves c.new val
        → value (length x.now) mode (number val x.now)
        ≡ with_sign (lit_value val r.0) (number val r.1)) }
    ensures grows { Grows c.old c.new }
    ensures more { length c.new.gates ≤ length c.old.gates + 8 * length x.now }
{
    match mode {
        Mode::Unsigned => Ok((Lit::Const(false), x.copy())),
        Mode::Ones => magnitude_of_ones(c, x),
        Mode::Twos => magnitude_of_twos(c, x),
    }
}

fn is_false(l: Lit) -> bool
    ensures { result ≡ is_false l }
{
    match l {
        Lit::Const(b) => !b,
        Lit::Var(_) | Lit::Not(_) => false,
    }
}

/// Whether a number that has a sign isn't 0.
#[tactic(auto, using(jd_vectors::proofs::Kept::grows_trans))]
pub fn sign_of_some<W: Rewrite>(
    c: &mut Circuit<'_, W>,
    sign: Lit,
    m: &Lits,
) -> Result<Lit, NoMemory>
    requires sign { IsOf c.old sign }
    requires of { AreOf c.old m.now }
    requires room { length c.old.gates + 2 * length m.now + 1 < 2 ^ 30 }
    ensures of { IfOk result (IsOf c.new) }
    ensures meaning { IfOk result (λ l. (val : ℕ → Bool) → Solves c.new val
        → lit_value val l ≡ (lit_value val sign && not (number val m.now == 0))) }
    ensures grows { Grows c.old c.new }
    ensures more { length c.new.gates ≤ length c.old.gates + 2 * length m.now + 1 }
{
    let zero = is_zero(c, m)?;
    let shown = c.and(sign, zero.opposite())?;
    Ok(shown)
}

/// Whether the pattern is to be a negative number's: in one's complement 0 has no sign.
fn shown_sign<W: Rewrite>(
    c: &mut Circuit<'_, W>,
    mode: Mode,
    sign: Lit,
    m: &Lits,
) -> Result<Lit, NoMemory>
    requires sign { IsOf c.old sign }
    requires of { AreOf c.old m.now }
    requires room { length c.old.gates + 2 * length m.now + 1 < 2 ^ 30 }
    ensures of { IfOk result (IsOf c.new) }
    ensures meaning { IfOk result (λ l. (val : ℕ → Bool) → Solves c.new val
        → lit_value val l ≡ shows_minus mode (lit_value val sign) (number val m.now)) }
    ensures grows { Grows c.old c.new }
    ensures more { length c.new.gates ≤ length c.old.gates + 2 * length m.now + 1 }
{
    match mode {
        Mode::Unsigned => Ok(sign),
        Mode::Twos => Ok(sign),
        Mode::Ones => sign_of_some(c, sign, m),
    }
}

/// The pattern by a sign that may be true.
#[tactic(auto, using(jd_vectors::proofs::Kept::grows_trans))]
fn signed_pattern<W: Rewrite>(
    c: &mut Circuit<'_, W>,
    mode: Mode,
    sign: Lit,
    m: &Lits,
    size: usize,
) -> Result<Lits, NoMemory>
    requires some { 1 ≤ size }
    requires long { length m.now ≤ 128 }
    requires size { size ≤ length m.now }
    requires sign { IsOf c.old sign }
    requires of { AreOf c.old m.now }
    requires room { length c.old.gates + 10 * length m.now + 1 < 2 ^ 30 }
    ensures length { IfOk result (λ r. length r ≡ size) }
    ensures of { IfOk result (AreOf c.new) }
    ensures number { IfOk result (λ r. (val : ℕ → Bool) → Solves c.new val
        → number val r ≡ low size mode (with_sign (lit_value val sign) (number val m.now))) }
    ensures grows { Grows c.old c.new }
    ensures more { length c.new.gates ≤ length c.old.gates + 10 * length m.now + 1 }
{
    let lower = m.resized(size);
    let on = shown_sign(c, mode, sign, m)?;
    let chosen = by_top(c, mode, &lower, on)?;
    Ok(chosen)
}

/// The pattern of a number given by sign and magnitude, whose higher part is lost.
pub fn pattern_of<W: Rewrite>(
    c: &mut Circuit<'_, W>,
    mode: Mode,
    sign: Lit,
    m: &Lits,
    size: usize,
) -> Result<Lits, NoMemory>
    requires some { 1 ≤ size }
    requires long { length m.now ≤ 128 }
    requires size { size ≤ length m.now }
    requires sign { IsOf c.old sign }
    requires of { AreOf c.old m.now }
    requires room { length c.old.gates + 10 * length m.now + 1 < 2 ^ 30 }
    ensures length { IfOk result (λ r. length r ≡ size) }
    ensures of { IfOk result (AreOf c.new) }
    ensures number { IfOk result (λ r. (val : ℕ → Bool) → Solves c.new val
        → number val r ≡ low size mode (with_sign (lit_value val sign) (number val m.now))) }
    ensures grows { Grows c.old c.new }
    ensures more { length c.new.gates ≤ length c.old.gates + 10 * length m.now + 1 }
{
    if is_false(sign) {
        return Ok(m.resized(size));
    }
    signed_pattern(c, mode, sign, m, size)
}

/// Whether a number given by sign and magnitude is out of the range of words of so many bits.
#[tactic(auto, using(jd_vectors::proofs::Kept::grows_trans))]
pub fn out_of_range<W: Rewrite>(
    c: &mut Circuit<'_, W>,
    mode: Mode,
    sign: Lit,
    m: &Lits,
    size: usize,
) -> Result<Lit, NoMemory>
    requires some { 1 ≤ size }
    requires size { size ≤ length m.now }
    requires sign { IsOf c.old sign }
    requires of { AreOf c.old m.now }
    requires room { length c.old.gates + 8 * length m.now < 2 ^ 30 }
    ensures of { IfOk result (IsOf c.new) }
    ensures meaning { IfOk result (λ l. (val : ℕ → Bool) → Solves c.new val
        → lit_value val l
        ≡ not (fits size mode (with_sign (lit_value val sign) (number val m.now)))) }
    ensures grows { Grows c.old c.new }
    ensures more { length c.new.gates ≤ length c.old.gates + 8 * length m.now }
{
    let wide = m.len();
    let lowest = least(mode, size, wide);
    let highest = greatest(mode, size, wide);
    let bound = select(c, sign, &lowest, &highest)?;
    let over = less(c, &bound, m)?;
    Ok(over)
}

/// A number given by sign and magnitude as an answer, out of range where it doesn't fit.
#[tactic(auto, using(jd_vectors::proofs::Kept::grows_trans))]
pub fn ranged<W: Rewrite>(
    c: &mut Circuit<'_, W>,
    mode: Mode,
    sign: Lit,
    m: &Lits,
    size: usize,
) -> Result<SymAnswer, NoMemory>
    requires some { 1 ≤ size }
    requires long { length m.now ≤ 128 }
    requires size { size ≤ length m.now }
    requires sign { IsOf c.old sign }
    requires of { AreOf c.old m.now }
    requires room { length c.old.gates + 18 * length m.now + 1 < 2 ^ 30 }
    ensures fits { IfOk result (AnswerFits (variables c.new) size) }
    ensures meaning { IfOk result (λ a. (val : ℕ → Bool) → Solves c.new val
        → answer_on val a ≡ ranged size mode (with_sign (lit_value val sign) (number val m.now))) }
    ensures grows { Grows c.old c.new }
    ensures more { length c.new.gates ≤ length c.old.gates + 18 * length m.now + 1 }
{
    let pattern = pattern_of(c, mode, sign, m, size)?;
    let range = out_of_range(c, mode, sign, m, size)?;
    Ok(SymAnswer {
        pattern,
        carry: None,
        range: Some(range),
    })
}
