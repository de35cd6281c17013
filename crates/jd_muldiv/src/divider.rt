//! Quotients and remainders, by long division in base two.
ghost use Rattle.std.specs.Prelude.{◌≡◌, ℕ, ◌+◌, ◌-◌, ◌*◌, ◌/◌, ◌%◌, ◌^◌, ◌<◌, ◌≤◌, Bool, length, IfOk, cond};
ghost use Rattle.jd_circuit.specs.Net.{Net, Grows, Solves};
ghost use Rattle.jd_vectors.specs.Number.{number, AreOf, Inside};
ghost use Rattle.jd_muldiv.specs.Steps.{TellTails, is_zero};

use crate::taking::take_away;
use jd_circuit::{Circuit, Lit, NoMemory, Rewrite};
use jd_vectors::Lits;

// The size that a literal needs, if it is no constant 0, or the size before.
fn size_with(literal: Lit, size: usize, next: usize) -> usize
    ensures { result ≡ cond (is_zero literal) size next }
{
    match literal {
        Lit::Const(b) => { if b { next } else { size } }
        Lit::Var(_) | Lit::Not(_) => next,
    }
}

// The literals up to the highest that isn't a constant 0: the work on a small constant stays small.
fn trimmed(b: &Lits) -> Lits
    ensures length { length result ≤ length b.now }
    ensures inside { (n : ℕ) → Inside n b.now → Inside n result }
    ensures number { (val : ℕ → Bool) → number val result ≡ number val b.now }
{
    let mut size = 0;
    for i in 0..b.len() {
        size = size_with(b.at(i), size, i + 1);
    }
    b.part(0, size)
}

// For each place, whether a literal from there on is true; and at the end that none is.
#[tactic(auto, using(jd_circuit::proofs::Values::grows_trans))]
fn tails_of<W: Rewrite>(c: &mut Circuit<'_, W>, b: &Lits) -> Result<Lits, NoMemory>
    requires length { length b.now ≤ 127 }
    requires of { AreOf c.old b.now }
    requires room { length c.old.gates + length b.now < 2 ^ 30 }
    ensures length { IfOk result (λ r. length r ≡ length b.now + 1) }
    ensures of { IfOk result (AreOf c.new) }
    ensures number { IfOk result (λ r. (val : ℕ → Bool) → Solves c.new val
        → TellTails val b.now 0 r) }
    ensures grows { Grows c.old c.new }
    ensures more { length c.new.gates ≤ length c.old.gates + length b.now }
{
    let mut tails = Lits::new();
    let mut tail = Lit::Const(false);
    tails.push(tail);
    let size = b.len();
    for i in 0..size {
        let neither = c.and(b.at(size - 1 - i).opposite(), tail.opposite())?;
        tail = neither.opposite();
        tails = tails.above(tail);
    }
    Ok(tails)
}

// One literal of the dividend after the other, from the highest on. What is left has as many
// literals as were read, up to those of the divisor, of which no more are looked at.
#[tactic(auto, using(jd_circuit::proofs::Values::grows_trans))]
fn long_division<W: Rewrite>(
    c: &mut Circuit<'_, W>,
    a: &Lits,
    b: &Lits,
) -> Result<(Lits, Lits), NoMemory>
    requires some { 1 ≤ length a.now }
    requires length { length b.now ≤ 127 }
    requires first { AreOf c.old a.now }
    requires second { AreOf c.old b.now }
    requires room { length c.old.gates < 2 ^ 30 - 2 ^ 19 }
    ensures quotient_length { IfOk result (λ r. length r.0 ≡ length a.now) }
    ensures remainder_length { IfOk result (λ r. length r.1 ≤ length b.now) }
    ensures quotient { IfOk result (λ r. AreOf c.new r.0) }
    ensures remainder { IfOk result (λ r. AreOf c.new r.1) }
    ensures number { IfOk result (λ r. (val : ℕ → Bool) → Solves c.new val → 0 < number val b.now
        → (number val r.0 ≡ number val a.now / number val b.now)
        × (number val r.1 ≡ number val a.now % number val b.now)) }
    ensures grows { Grows c.old c.new }
    ensures more { length c.new.gates ≤ length c.old.gates + 8 * length a.now * (length b.now + 1) }
{
    let tails = tails_of(c, b)?;
    let mut quotient = Lits::new();
    let mut rest = Lits::new();
    let size = a.len();
    for i in 0..size {
        let read = b.len().min(i + 1);
        let dividend = rest.above(a.at(size - 1 - i)).resized(read + 1);
        let (fits, left) = take_away(c, &dividend, &b.part(0, read), tails.at(read))?;
        quotient = quotient.above(fits);
        rest = left;
    }
    Ok((quotient, rest))
}

/// Quotient, as long as the first number, and remainder, as long as the second, where the second
/// isn't 0. With p literals in the first and q in the second it adds at most 8 p (q + 1) gates.
#[tactic(auto, using(jd_circuit::proofs::Values::grows_trans))]
pub fn div_lits<W: Rewrite>(
    c: &mut Circuit<'_, W>,
    a: &Lits,
    b: &Lits,
) -> Result<(Lits, Lits), NoMemory>
    requires length { length b.now ≤ 127 }
    requires first { AreOf c.old a.now }
    requires second { AreOf c.old b.now }
    requires room { length c.old.gates < 2 ^ 30 - 2 ^ 19 }
    ensures quotient_length { IfOk result (λ r. length r.0 ≡ length a.now) }
    ensures remainder_length { IfOk result (λ r. length r.1 ≡ length b.now) }
    ensures quotient { IfOk result (λ r. AreOf c.new r.0) }
    ensures remainder { IfOk result (λ r. AreOf c.new r.1) }
    ensures number { IfOk result (λ r. (val : ℕ → Bool) → Solves c.new val → 0 < number val b.now
        → (number val r.0 ≡ number val a.now / number val b.now)
        × (number val r.1 ≡ number val a.now % number val b.now)) }
    ensures grows { Grows c.old c.new }
    ensures more { length c.new.gates ≤ length c.old.gates + 8 * length a.now * (length b.now + 1) }
{
    if a.is_empty() {
        return Ok((Lits::new(), Lits::new().resized(b.len())));
    }
    let short = trimmed(b);
    let (quotient, rest) = long_division(c, a, &short)?;
    Ok((quotient, rest.resized(b.len())))
}
