//! Gives each question the literal that is its answer on all data of which it's asked, so that a
//! path can have it as a guard. Flags and bits of the index are at hand; the rest take circuits.
ghost use Rattle.std.specs.Prelude.{◌≡◌, ℕ, ◌+◌, ◌-◌, ◌^◌, ◌<◌, ◌≤◌, Bool, IfOk, length, nat_lt};
ghost use Rattle.hp_model.specs.State.{registers as registers_of};
ghost use Rattle.hp_model.specs.Words.{bit, magnitude};
ghost use Rattle.hp_model.specs.Questions.{holds};
ghost use Rattle.hp_control.specs.Controls.{Listing, control_of};
ghost use Rattle.jd_circuit.specs.Meaning.{lit_value};
ghost use Rattle.jd_circuit.specs.Net.{Grows, IsLit, IsOf, Solves, variables};
ghost use Rattle.jd_vectors.specs.Number.{AreOf, Inside, number};
ghost use Rattle.jd_content.specs.Meaning.{Fits, data_on};
ghost use Rattle.jd_questions.specs.Questions.{IsAsked, asked, count_of, question_gates};

use crate::conditions::{is_negative, test_literal};
use crate::question::Question;
use hp_control::Control;
use hp_ops::Loop;
use hp_words::Mode;
use jd_circuit::{Circuit, Lit, NoMemory, Rewrite};
use jd_comparisons::counted_index;
use jd_content::{SymContent, flag};
use jd_places::{bit_is_set, places_of};
use jd_products::quotient_is_too_great;
use jd_rows::{
    is_at_least, magnitude, magnitude_is_above_size, magnitude_is_size_or_more, zero_test,
};
use jd_vectors::Lits;

/// A bit of a word, which is false above its end.
fn bit_at(x: &Lits, place: usize) -> Lit
    ensures of { (n : ℕ) → Inside n x.now → IsLit n result }
    ensures meaning { (val : ℕ → Bool) → lit_value val result ≡ bit (number val x.now) place }
{
    if place < x.len() {
        x.at(place)
    } else {
        Lit::Const(false)
    }
}

/// Whether the magnitude of X is above 64.
#[tactic(auto, using(jd_vectors::proofs::Kept::grows_trans))]
fn magnitude_is_above_64<W: Rewrite>(
    c: &mut Circuit<'_, W>,
    mode: Mode,
    x: &Lits,
) -> Result<Lit, NoMemory>
    requires some { 1 ≤ length x.now }
    requires word { length x.now ≤ 64 }
    requires of { AreOf c.old x.now }
    requires room { length c.old.gates < 2 ^ 30 - 2 ^ 21 }
    ensures of { IfOk result (IsOf c.new) }
    ensures meaning { IfOk result (λ l. (val : ℕ → Bool) → Solves c.new val
        → lit_value val l ≡ nat_lt 64 (magnitude (length x.now) mode (number val x.now))) }
    ensures grows { Grows c.old c.new }
    ensures more { length c.new.gates ≤ length c.old.gates + 2 ^ 12 }
{
    let (_, magnitude) = magnitude(c, mode, x)?;
    let wide = magnitude.resized(64);
    let l = is_at_least(c, &wide, 65)?;
    Ok(l)
}

/// A bit of the magnitude of X.
fn magnitude_bit<W: Rewrite>(
    c: &mut Circuit<'_, W>,
    mode: Mode,
    x: &Lits,
    place: u8,
) -> Result<Lit, NoMemory>
    requires some { 1 ≤ length x.now }
    requires word { length x.now ≤ 64 }
    requires of { AreOf c.old x.now }
    requires room { length c.old.gates < 2 ^ 30 - 2 ^ 21 }
    ensures of { IfOk result (IsOf c.new) }
    ensures meaning { IfOk result (λ l. (val : ℕ → Bool) → Solves c.new val
        → lit_value val l ≡ bit (magnitude (length x.now) mode (number val x.now)) place) }
    ensures grows { Grows c.old c.new }
    ensures more { length c.new.gates ≤ length c.old.gates + 2 ^ 12 }
{
    let (_, magnitude) = magnitude(c, mode, x)?;
    Ok(bit_at(&magnitude, place as usize))
}

/// Whether the bit of Y is set that X says.
#[tactic(auto, using(jd_vectors::proofs::Kept::grows_trans))]
fn bit_of_y<W: Rewrite>(
    c: &mut Circuit<'_, W>,
    mode: Mode,
    y: &Lits,
    x: &Lits,
) -> Result<Lit, NoMemory>
    requires some { 1 ≤ length x.now }
    requires word { length x.now ≤ 64 }
    requires length { length y.now ≡ length x.now }
    requires first { AreOf c.old y.now }
    requires second { AreOf c.old x.now }
    requires room { length c.old.gates < 2 ^ 30 - 2 ^ 21 }
    ensures of { IfOk result (IsOf c.new) }
    ensures meaning { IfOk result (λ l. (val : ℕ → Bool) → Solves c.new val
        → magnitude (length x.now) mode (number val x.now) < length x.now
        → lit_value val l
        ≡ bit (number val y.now) (magnitude (length x.now) mode (number val x.now))) }
    ensures grows { Grows c.old c.new }
    ensures more { length c.new.gates ≤ length c.old.gates + 2 ^ 12 }
{
    let places = places_of(c, mode, x)?;
    let l = bit_is_set(c, y, &places)?;
    Ok(l)
}

/// Whether the index register counts to zero.
#[tactic(auto, using(jd_vectors::proofs::Kept::grows_trans))]
fn count_is_zero<W: Rewrite>(
    c: &mut Circuit<'_, W>,
    content: &SymContent,
    control: &Control,
    op: Loop,
) -> Result<Lit, NoMemory>
    requires fits { Fits (variables c.old) control.now.size.bits content.now }
    requires room { length c.old.gates < 2 ^ 30 - 2 ^ 21 }
    ensures of { IfOk result (IsOf c.new) }
    ensures meaning { (listing : Listing) → IfOk result (λ l. (val : ℕ → Bool) → Solves c.new val
        → lit_value val l
        ≡ holds (count_of op) (control_of control.now listing) (data_on val content.now)) }
    ensures grows { Grows c.old c.new }
    ensures more { length c.new.gates ≤ length c.old.gates + 2 ^ 12 }
{
    let pattern = counted_index(c, control.mode, op, &content.i, control.size.bits as usize)?;
    let l = zero_test(c, control.mode, &pattern)?;
    Ok(l)
}

/// The literal of a question, where there are so many registers.
pub fn literal<W: Rewrite>(
    c: &mut Circuit<'_, W>,
    content: &SymContent,
    control: &Control,
    registers: u16,
    question: Question,
) -> Result<Lit, NoMemory>
    requires fits { Fits (variables c.old) control.now.size.bits content.now }
    requires room { length c.old.gates < 2 ^ 30 - 2 ^ 21 }
    ensures of { IfOk result (IsOf c.new) }
    ensures meaning { (listing : Listing)
        → registers_of (control_of control.now listing) ≡ registers
        → IfOk result (λ l. (val : ℕ → Bool) → Solves c.new val
        → IsAsked (asked question) (control_of control.now listing) (data_on val content.now)
        → lit_value val l
        ≡ holds (asked question) (control_of control.now listing) (data_on val content.now)) }
    ensures grows { Grows c.old c.new }
    ensures more { length c.new.gates ≤ length c.old.gates + question_gates (asked question) }
{
    let mode = control.mode;
    match question {
        Question::Test(test) => {
            let l = test_literal(c, mode, test, &content.y, &content.x)?;
            Ok(l)
        }
        Question::Flag(number) => Ok(flag(content, number.number)),
        Question::XIsZero => {
            let l = zero_test(c, mode, &content.x)?;
            Ok(l)
        }
        Question::XIsNegative => {
            let l = is_negative(c, mode, &content.x)?;
            Ok(l)
        }
        Question::QuotientIsTooGreat => {
            let l = quotient_is_too_great(c, mode, &content.y, &content.z, &content.x)?;
            Ok(l)
        }
        Question::MagnitudeAboveSize => {
            let l = magnitude_is_above_size(c, mode, &content.x)?;
            Ok(l)
        }
        Question::MagnitudeAtLeastSize => {
            let l = magnitude_is_size_or_more(c, mode, &content.x)?;
            Ok(l)
        }
        Question::MagnitudeAbove64 => {
            let l = magnitude_is_above_64(c, mode, &content.x)?;
            Ok(l)
        }
        Question::BitOfY => {
            let l = bit_of_y(c, mode, &content.y, &content.x)?;
            Ok(l)
        }
        Question::CountIsZero(op) => {
            let l = count_is_zero(c, content, control, op)?;
            Ok(l)
        }
        Question::IndexPastRegisters => {
            let l = is_at_least(c, &content.i, registers as u64)?;
            Ok(l)
        }
        Question::IndexAbove15 => {
            let l = is_at_least(c, &content.i, 16)?;
            Ok(l)
        }
        Question::IndexBit(place) => Ok(bit_at(&content.i, place as usize)),
        Question::MagnitudeBit(place) => {
            let l = magnitude_bit(c, mode, &content.x, place)?;
            Ok(l)
        }
    }
}
