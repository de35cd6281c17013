//! Masks, the count of ones, and single bits of Y where X says, over circuits of `jd_places`. A
//! test of a bit adds no gate, since a question answers it, and Y goes to X unchanged.
ghost use Rattle.std.specs.Prelude.{◌≡◌, ℕ, ◌+◌, ◌-◌, ◌*◌, ◌^◌, ◌<◌, ◌≤◌, Bool, IfOk, List, length};
ghost use Rattle.hp_model.specs.Words.{magnitude};
ghost use Rattle.hp_model.specs.WordOperations.{mask_left_pattern, mask_right_pattern, plain, with_bit, without_bit};
ghost use Rattle.hp_ops.specs.Meaning.{of_bits};
ghost use Rattle.jd_circuit.specs.Net.{Grows, Solves, variables};
ghost use Rattle.jd_vectors.specs.Number.{AreOf, number};
ghost use Rattle.jd_rows.specs.Answers.{AnswerFits, answer_on};
ghost use Rattle.jd_content.specs.Meaning.{Fits, Puts};
ghost use Rattle.jd_operations.specs.Answers.{HasPlace, bits_of, put_bits};
ghost use Rattle.jd_operations.specs.Done.{IsDone};

use hp_control::Control;
use hp_ops::Bits;
use hp_words::Mode;
use jd_circuit::{Circuit, NoMemory, Rewrite};
use jd_content::{SymContent, answer_two, answer_x};
use jd_places::{clear_bit, mask_left, mask_right, ones_of, places_of, set_bit};
use jd_rows::SymAnswer;
use jd_vectors::Lits;

/// Ones at the left end, as many as X says.
#[tactic(auto, using(jd_vectors::proofs::Kept::grows_trans))]
fn left_mask<W: Rewrite>(
    c: &mut Circuit<'_, W>,
    mode: Mode,
    x: &Lits,
) -> Result<SymAnswer, NoMemory>
    requires some { 1 ≤ length x.now }
    requires word { length x.now ≤ 64 }
    requires of { AreOf c.old x.now }
    requires room { length c.old.gates < 2 ^ 30 - 2 ^ 21 }
    ensures fits { IfOk result (AnswerFits (variables c.new) (length x.now)) }
    ensures meaning { IfOk result (λ a. (val : ℕ → Bool) → Solves c.new val
        → magnitude (length x.now) mode (number val x.now) ≤ length x.now
        → answer_on val a
        ≡ plain (mask_left_pattern (length x.now) (magnitude (length x.now) mode
        (number val x.now)))) }
    ensures grows { Grows c.old c.new }
    ensures more { length c.new.gates ≤ length c.old.gates + 2 ^ 12 }
{
    let m = places_of(c, mode, x)?;
    let pattern = mask_left(c, x.len(), &m)?;
    Ok(SymAnswer::plain(pattern))
}

/// Ones at the right end, as many as X says.
#[tactic(auto, using(jd_vectors::proofs::Kept::grows_trans))]
fn right_mask<W: Rewrite>(
    c: &mut Circuit<'_, W>,
    mode: Mode,
    x: &Lits,
) -> Result<SymAnswer, NoMemory>
    requires some { 1 ≤ length x.now }
    requires word { length x.now ≤ 64 }
    requires of { AreOf c.old x.now }
    requires room { length c.old.gates < 2 ^ 30 - 2 ^ 21 }
    ensures fits { IfOk result (AnswerFits (variables c.new) (length x.now)) }
    ensures meaning { IfOk result (λ a. (val : ℕ → Bool) → Solves c.new val
        → magnitude (length x.now) mode (number val x.now) ≤ length x.now
        → answer_on val a
        ≡ plain (mask_right_pattern (magnitude (length x.now) mode (number val x.now)))) }
    ensures grows { Grows c.old c.new }
    ensures more { length c.new.gates ≤ length c.old.gates + 2 ^ 12 }
{
    let m = places_of(c, mode, x)?;
    let pattern = mask_right(c, x.len(), &m)?;
    Ok(SymAnswer::plain(pattern))
}

/// Y with the bit set that X says.
#[tactic(auto, using(jd_vectors::proofs::Kept::grows_trans))]
fn bit_set<W: Rewrite>(
    c: &mut Circuit<'_, W>,
    mode: Mode,
    y: &Lits,
    x: &Lits,
) -> Result<SymAnswer, NoMemory>
    requires some { 1 ≤ length x.now }
    requires word { length x.now ≤ 64 }
    requires length { length y.now ≡ length x.now }
    requires first { AreOf c.old y.now }
    requires second { AreOf c.old x.now }
    requires room { length c.old.gates < 2 ^ 30 - 2 ^ 21 }
    ensures fits { IfOk result (AnswerFits (variables c.new) (length x.now)) }
    ensures meaning { IfOk result (λ a. (val : ℕ → Bool) → Solves c.new val
        → magnitude (length x.now) mode (number val x.now) < length x.now
        → answer_on val a
        ≡ plain (with_bit (number val y.now) (magnitude (length x.now) mode (number val x.now)))) }
    ensures grows { Grows c.old c.new }
    ensures more { length c.new.gates ≤ length c.old.gates + 2 ^ 12 }
{
    let m = places_of(c, mode, x)?;
    let pattern = set_bit(c, y, &m)?;
    Ok(SymAnswer::plain(pattern))
}

/// Y with the bit cleared that X says.
#[tactic(auto, using(jd_vectors::proofs::Kept::grows_trans))]
fn bit_cleared<W: Rewrite>(
    c: &mut Circuit<'_, W>,
    mode: Mode,
    y: &Lits,
    x: &Lits,
) -> Result<SymAnswer, NoMemory>
    requires some { 1 ≤ length x.now }
    requires word { length x.now ≤ 64 }
    requires length { length y.now ≡ length x.now }
    requires first { AreOf c.old y.now }
    requires second { AreOf c.old x.now }
    requires room { length c.old.gates < 2 ^ 30 - 2 ^ 21 }
    ensures fits { IfOk result (AnswerFits (variables c.new) (length x.now)) }
    ensures meaning { IfOk result (λ a. (val : ℕ → Bool) → Solves c.new val
        → magnitude (length x.now) mode (number val x.now) < length x.now
        → answer_on val a
        ≡ plain (without_bit (number val y.now) (magnitude (length x.now) mode
        (number val x.now)))) }
    ensures grows { Grows c.old c.new }
    ensures more { length c.new.gates ≤ length c.old.gates + 2 ^ 12 }
{
    let m = places_of(c, mode, x)?;
    let pattern = clear_bit(c, y, &m)?;
    Ok(SymAnswer::plain(pattern))
}

/// The answer. B? leaves Y as it is.
fn answer<W: Rewrite>(
    c: &mut Circuit<'_, W>,
    mode: Mode,
    op: Bits,
    y: &Lits,
    x: &Lits,
) -> Result<SymAnswer, NoMemory>
    requires some { 1 ≤ length x.now }
    requires word { length x.now ≤ 64 }
    requires length { length y.now ≡ length x.now }
    requires first { AreOf c.old y.now }
    requires second { AreOf c.old x.now }
    requires room { length c.old.gates < 2 ^ 30 - 2 ^ 21 }
    ensures fits { IfOk result (AnswerFits (variables c.new) (length x.now)) }
    ensures meaning { IfOk result (λ a. (val : ℕ → Bool) → Solves c.new val
        → HasPlace op (length x.now) mode (number val x.now)
        → answer_on val a ≡ bits_of op (length x.now) mode (number val y.now) (number val x.now)) }
    ensures grows { Grows c.old c.new }
    ensures more { length c.new.gates ≤ length c.old.gates + 2 ^ 12 }
{
    match op {
        Bits::MaskLeft => left_mask(c, mode, x),
        Bits::MaskRight => right_mask(c, mode, x),
        Bits::CountOnes => ones_of(c, x),
        Bits::Set => bit_set(c, mode, y, x),
        Bits::Clear => bit_cleared(c, mode, y, x),
        Bits::Test => Ok(SymAnswer::plain(y.copy())),
    }
}

/// Puts the answer where the operation puts it.
fn put(content: &mut SymContent, op: Bits, answer: SymAnswer)
    ensures { Puts (put_bits op) answer content.old content.new }
{
    match op {
        Bits::MaskLeft => answer_x(content, answer),
        Bits::MaskRight => answer_x(content, answer),
        Bits::CountOnes => answer_x(content, answer),
        Bits::Set => answer_two(content, answer),
        Bits::Clear => answer_two(content, answer),
        Bits::Test => answer_two(content, answer),
    }
}

/// Such an operation, done to the content.
pub fn change_bits<W: Rewrite>(
    c: &mut Circuit<'_, W>,
    content: &mut SymContent,
    control: &Control,
    op: Bits,
) -> Result<(), NoMemory>
    requires fits { Fits (variables c.old) control.now.size.bits content.old }
    requires room { length c.old.gates < 2 ^ 30 - 2 ^ 21 }
    ensures done { (given : List Bool) → IfOk result (λ _. IsDone c.old c.new control.now
        (of_bits op) given control.now.size.bits content.old content.new) }
    ensures grows { Grows c.old c.new }
    ensures more { length c.new.gates ≤ length c.old.gates + 2 ^ 17 }
{
    let answer = answer(c, control.mode, op, &content.y, &content.x)?;
    put(content, op, answer);
    Ok(())
}
