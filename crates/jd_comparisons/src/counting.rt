//! A word less one and plus one, as the index register counts.
ghost use Rattle.std.specs.Prelude.{◌≡◌, ℕ, ◌+◌, ◌*◌, ◌%◌, ◌^◌, ◌<◌, ◌≤◌, Bool, IfOk, length};
ghost use Rattle.hp_model.specs.WordOperations.{difference_pattern, sum_pattern};
ghost use Rattle.jd_circuit.specs.Net.{Grows, Solves};
ghost use Rattle.jd_vectors.specs.Number.{AreOf, Inside, number};
ghost use Rattle.jd_comparisons.specs.Counts.{counted};

use hp_model::Mode;
use hp_ops::Loop;
use jd_circuit::{Circuit, NoMemory, Rewrite};
use jd_rows::{difference_pattern, sum};
use jd_vectors::Lits;

/// The number 1 in as many literals as a word has.
fn one(x: &Lits) -> Lits
    requires some { 1 ≤ length x.now }
    requires word { length x.now ≤ 64 }
    ensures length { length result ≡ length x.now }
    ensures inside { (n : ℕ) → Inside n result }
    ensures number { (val : ℕ → Bool) → number val result ≡ 1 }
{
    Lits::constant(x.len() as u8, 1)
}

/// The word less one.
fn one_less<W: Rewrite>(c: &mut Circuit<'_, W>, mode: Mode, x: &Lits) -> Result<Lits, NoMemory>
    requires some { 1 ≤ length x.now }
    requires word { length x.now ≤ 64 }
    requires of { AreOf c.old x.now }
    requires room { length c.old.gates + 10 * length x.now < 2 ^ 30 }
    ensures length { IfOk result (λ r. length r ≡ length x.now) }
    ensures of { IfOk result (AreOf c.new) }
    ensures number { IfOk result (λ r. (val : ℕ → Bool) → Solves c.new val
        → number val r ≡ difference_pattern (length x.now) mode (number val x.now) 1) }
    ensures grows { Grows c.old c.new }
    ensures more { length c.new.gates ≤ length c.old.gates + 10 * length x.now }
{
    let one = one(x);
    let pattern = difference_pattern(c, mode, x, &one)?;
    Ok(pattern)
}

/// The word plus one.
fn one_more<W: Rewrite>(c: &mut Circuit<'_, W>, mode: Mode, x: &Lits) -> Result<Lits, NoMemory>
    requires some { 1 ≤ length x.now }
    requires word { length x.now ≤ 64 }
    requires of { AreOf c.old x.now }
    requires room { length c.old.gates + 10 * length x.now + 3 < 2 ^ 30 }
    ensures length { IfOk result (λ r. length r ≡ length x.now) }
    ensures of { IfOk result (AreOf c.new) }
    ensures number { IfOk result (λ r. (val : ℕ → Bool) → Solves c.new val
        → number val r ≡ sum_pattern (length x.now) mode (number val x.now) 1) }
    ensures grows { Grows c.old c.new }
    ensures more { length c.new.gates ≤ length c.old.gates + 10 * length x.now + 3 }
{
    let one = one(x);
    let answer = sum(c, mode, x, &one)?;
    Ok(answer.pattern)
}

/// The index register as a word of so many bits, less one or plus one.
#[tactic(auto, using(jd_vectors::proofs::Kept::grows_trans))]
pub fn counted_index<W: Rewrite>(
    c: &mut Circuit<'_, W>,
    mode: Mode,
    op: Loop,
    index: &Lits,
    size: usize,
) -> Result<Lits, NoMemory>
    requires some { 1 ≤ size }
    requires word { size ≤ 64 }
    requires of { AreOf c.old index.now }
    requires room { length c.old.gates + 10 * size + 3 < 2 ^ 30 }
    ensures length { IfOk result (λ r. length r ≡ size) }
    ensures of { IfOk result (AreOf c.new) }
    ensures number { IfOk result (λ r. (val : ℕ → Bool) → Solves c.new val
        → number val r ≡ counted op size mode (number val index.now % 2 ^ size)) }
    ensures grows { Grows c.old c.new }
    ensures more { length c.new.gates ≤ length c.old.gates + 10 * size + 3 }
{
    let word = index.resized(size);
    match op {
        Loop::Decrement => {
            let pattern = one_less(c, mode, &word)?;
            Ok(pattern)
        }
        Loop::Increment => {
            let pattern = one_more(c, mode, &word)?;
            Ok(pattern)
        }
    }
}
