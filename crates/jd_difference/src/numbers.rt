//! One literal for the words, the index register and the flags that a problem observes. Each is
//! widened to 64 literals first, so contents of different word sizes compare as numbers; `ends`
//! joins it with the memory.
ghost use Rattle.std.specs.Prelude.{◌≡◌, ℕ, ◌+◌, ◌*◌, ◌^◌, ◌-◌, ◌<◌, ◌≤◌, Bool, length, slice_index, IfOk};
ghost use Rattle.hp_model.specs.State.{flag as flag_of};
ghost use Rattle.hp_model.specs.WordOperations.{bit_number};
ghost use Rattle.jd_model.specs.Problems.{content_numbers};
ghost use Rattle.jd_start.specs.Parts.{marks_of};
ghost use Rattle.jd_agreement.specs.Agreement.{same_at, same_numbers};
ghost use Rattle.jd_circuit.specs.Meaning.{lit_value};
ghost use Rattle.jd_circuit.specs.Net.{Grows, IsOf, Solves, variables};
ghost use Rattle.jd_vectors.specs.Number.{Inside, number};
ghost use Rattle.jd_content.specs.Meaning.{Fits, data_on};
ghost use Rattle.jd_difference.specs.Ends.{HasShape};

use jd_circuit::{Circuit, Lit, NoMemory, Rewrite};
use jd_content::{SymContent, flag, widened};
use jd_start::{CONTENT_NUMBERS, Parts, part_at};
use jd_vectors::{Lits, same};

/// A flag in 64 literals.
fn flag_word(content: &SymContent, place: u8) -> Lits
    requires { place < 6 }
    ensures length { length result ≡ 64 }
    ensures inside { (n : ℕ) → Inside n content.now.flags → Inside n result }
    ensures number { (val : ℕ → Bool) → number val result ≡ bit_number (flag_of (data_on val content.now) place) }
{
    let mut lits = Lits::new();
    lits.push(flag(content, place));
    widened(&lits, 64)
}

/// A number of a content in 64 literals: a word, the index register or a flag.
pub fn number_at(content: &SymContent, place: usize) -> Lits
    requires place { place < CONTENT_NUMBERS }
    requires shape { (n : ℕ) × HasShape n content.now }
    ensures length { length result ≡ 64 }
    ensures inside { (n : ℕ) → HasShape n content.now → Inside n result }
    ensures number { (val : ℕ → Bool) → number val result ≡ slice_index (content_numbers (data_on val content.now)) place }
{
    match place {
        0 => widened(&content.x, 64),
        1 => widened(&content.y, 64),
        2 => widened(&content.z, 64),
        3 => widened(&content.t, 64),
        4 => widened(&content.l, 64),
        5 => widened(&content.i, 64),
        _ => flag_word(content, place as u8 - 6),
    }
}

/// The literal that is true exactly where a number is the same in both, or isn't observed.
fn same_at<W: Rewrite>(
    c: &mut Circuit<'_, W>,
    observed: &Parts,
    place: usize,
    first: &SymContent,
    second: &SymContent,
) -> Result<Lit, NoMemory>
    requires place { place < CONTENT_NUMBERS }
    requires first { HasShape (variables c.old) first.now }
    requires second { HasShape (variables c.old) second.now }
    requires room { length c.old.gates < 2 ^ 30 - 2 ^ 14 }
    ensures of { IfOk result (IsOf c.new) }
    ensures means { IfOk result (λ l. (val : ℕ → Bool) → Solves c.new val → lit_value val l
        ≡ same_at (marks_of observed.now) (content_numbers (data_on val first.now)) (content_numbers (data_on val second.now)) place) }
    ensures grows { Grows c.old c.new }
    ensures more { length c.new.gates ≤ length c.old.gates + 128 }
{
    if !observed.contains(part_at(place)) {
        // `mark` tells that the circuit is wired.
        let _ = c.mark();
        return Ok(Lit::Const(true));
    }
    let one = number_at(first, place);
    let other = number_at(second, place);
    let equal = same(c, &one, &other)?;
    Ok(equal)
}

/// How many flags there are. It is called for this fact alone.
fn flag_count(flags: &[Lit; 6]) -> usize
    ensures count { length flags.now ≡ result }
    ensures six { result ≡ 6 }
{
    flags.len()
}

/// The literal that is true exactly where the observed numbers are the same.
pub fn same_numbers<W: Rewrite>(
    c: &mut Circuit<'_, W>,
    observed: &Parts,
    first: &SymContent,
    second: &SymContent,
) -> Result<Lit, NoMemory>
    requires first { HasShape (variables c.old) first.now }
    requires second { HasShape (variables c.old) second.now }
    requires room { length c.old.gates < 2 ^ 29 }
    ensures of { IfOk result (IsOf c.new) }
    ensures means { IfOk result (λ l. (val : ℕ → Bool) → Solves c.new val → lit_value val l
        ≡ same_numbers (marks_of observed.now) (content_numbers (data_on val first.now)) (content_numbers (data_on val second.now))) }
    ensures grows { Grows c.old c.new }
    ensures flags { (length first.now.flags ≡ 6) × (length second.now.flags ≡ 6) }
    ensures more { length c.new.gates ≤ length c.old.gates + 12 * 129 }
{
    let flags = flag_count(&first.flags).min(flag_count(&second.flags));
    let mut all = Lit::Const(true);
    for place in 0..6 + flags {
        let one = same_at(c, observed, place, first, second)?;
        all = c.and(all, one)?;
    }
    Ok(all)
}
