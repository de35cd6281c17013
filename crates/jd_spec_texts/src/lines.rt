//! The lines of a spec, one function for each sort: it judges the line by what was read before, and
//! sets what the line says. The causes are asked for in their order: Syntax, Repeated, Missing, Range.
ghost use Rattle.std.specs.Prelude.{◌≡◌};
ghost use Rattle.jd_text.specs.Words.{words_of};
ghost use Rattle.jd_text.specs.Readings.{Takes};
ghost use Rattle.jd_model.specs.ProblemLines.{one_number as one_number_of};
ghost use Rattle.jd_spec_texts.specs.SpecLines.{one_give};
ghost use Rattle.jd_spec_texts.specs.SpecTexts.{end_line, give_line, is_before_gives, is_part_given, kind_line, other_line, routine_line, shared_line, spec_line, with_spec_line};
ghost use Rattle.jd_spec_texts.specs.Specs.{give_told};
ghost use Rattle.jd_spec_texts.specs.Readings.{spec_reading_of};

use crate::formulas::take_formula;
use crate::kinds::SpecKind;
use crate::names::{given_named, spec_kind_of};
use crate::reading::{END_DUE, NOTHING_DUE, OBSERVE_DUE, ROUTINE_DUE, SpecReading, WORD_DUE};
use jd_formulas::is_in_range;
use jd_gives::{Formula, Give, GivenPart, Gives, place_of};
use jd_model::LineKind;
use jd_problem::{ProblemCause, one_number, take_assembly, take_kind};
use jd_text::next_word;

/// Whether lines of a kind stand before `give` lines.
fn is_before_gives(kind: LineKind) -> bool
    ensures { result ≡ is_before_gives kind }
{
    match kind {
        LineKind::Fix | LineKind::Assume => true,
        _ => false,
    }
}

/// A line that problems have too.
fn take_shared(reading: &mut SpecReading, kind: LineKind, rest: &[u8]) -> Result<(), ProblemCause>
    ensures { Takes (shared_line (spec_reading_of reading.old) kind (words_of rest.now))
        result (spec_reading_of reading.new) }
{
    if is_before_gives(kind) && !reading.gives.as_slice().is_empty() {
        return Err(ProblemCause::Syntax);
    }
    take_kind(&mut reading.problem, kind, rest)?;
    if reading.problem.due == OBSERVE_DUE {
        reading.problem.due = ROUTINE_DUE;
    }
    Ok(())
}

/// The `spec` line.
fn take_spec(reading: &mut SpecReading, rest: &[u8]) -> Result<(), ProblemCause>
    ensures { Takes (spec_line (spec_reading_of reading.old) (one_number_of (words_of rest.now)))
        result (spec_reading_of reading.new) }
{
    let Some(n) = one_number(rest) else {
        return Err(ProblemCause::Syntax);
    };
    if reading.problem.due > 0 {
        return Err(ProblemCause::Repeated);
    }
    if n != 1 {
        return Err(ProblemCause::Range);
    }
    reading.problem.due = WORD_DUE;
    Ok(())
}

/// A part and a whole formula. The formula's words are kept where they are few and their numbers in
/// range.
fn one_give(line: &[u8]) -> Option<(GivenPart, Option<Formula>)>
    ensures { result ≡ give_told (one_give (words_of line.now)) }
{
    let (name, end) = next_word(line, 0)?;
    let part = given_named(name)?;
    let formula = take_formula(line, end)?;
    Some((part, formula))
}

/// Whether a part is given.
fn is_part_given(part: GivenPart, gives: &Gives) -> bool
    ensures { result ≡ is_part_given part gives.now }
{
    let place = place_of(part);
    gives
        .as_slice()
        .iter()
        .any(|give| place == place_of(give.part))
}

/// A `give` line, which is well-formed only before `routine`.
fn take_give(reading: &mut SpecReading, rest: &[u8]) -> Result<(), ProblemCause>
    ensures { Takes (give_line (spec_reading_of reading.old) (one_give (words_of rest.now)))
        result (spec_reading_of reading.new) }
{
    let Some((part, formula)) = one_give(rest) else {
        return Err(ProblemCause::Syntax);
    };
    if !reading.problem.is_before_first() {
        return Err(ProblemCause::Syntax);
    }
    if is_part_given(part, &reading.gives) {
        return Err(ProblemCause::Repeated);
    }
    if reading.problem.due < ROUTINE_DUE {
        return Err(ProblemCause::Missing);
    }
    let Some(formula) = formula else {
        return Err(ProblemCause::Range);
    };
    if !is_in_range(reading.problem.problem.size.bits, formula.tokens()) {
        return Err(ProblemCause::Range);
    }
    reading.gives.push(Give { part, formula });
    Ok(())
}

/// The `routine` line, which wants a `give` line before it.
fn take_routine(reading: &mut SpecReading, rest: &[u8]) -> Result<(), ProblemCause>
    ensures { Takes (routine_line (spec_reading_of reading.old) (words_of rest.now))
        result (spec_reading_of reading.new) }
{
    if next_word(rest, 0).is_some() {
        return Err(ProblemCause::Syntax);
    }
    if !reading.problem.is_before_first() {
        return Err(ProblemCause::Repeated);
    }
    if reading.problem.due < ROUTINE_DUE || reading.gives.as_slice().is_empty() {
        return Err(ProblemCause::Missing);
    }
    reading.problem.due = END_DUE;
    Ok(())
}

/// The `end` line.
fn take_end(reading: &mut SpecReading, rest: &[u8]) -> Result<(), ProblemCause>
    ensures { Takes (end_line (spec_reading_of reading.old) (words_of rest.now))
        result (spec_reading_of reading.new) }
{
    if next_word(rest, 0).is_some() {
        return Err(ProblemCause::Syntax);
    }
    if reading.problem.is_before_first() {
        return Err(ProblemCause::Missing);
    }
    reading.problem.due = NOTHING_DUE;
    Ok(())
}

/// A line of a kind, by the words that follow its first.
fn take_line_of(reading: &mut SpecReading, kind: SpecKind, rest: &[u8]) -> Result<(), ProblemCause>
    ensures { Takes (kind_line (spec_reading_of reading.old) kind (words_of rest.now))
        result (spec_reading_of reading.new) }
{
    match kind {
        SpecKind::Spec => take_spec(reading, rest),
        SpecKind::Shared(kind) => take_shared(reading, kind, rest),
        SpecKind::Give => take_give(reading, rest),
        SpecKind::Routine => take_routine(reading, rest),
        SpecKind::End => take_end(reading, rest),
    }
}

/// A line whose first word is of no kind: in the routine one operation as assembly.
fn take_other(reading: &mut SpecReading, line: &[u8]) -> Result<(), ProblemCause>
    ensures { Takes (other_line (spec_reading_of reading.old) (words_of line.now))
        result (spec_reading_of reading.new) }
{
    take_assembly(&mut reading.problem, line)
}

/// One more line of a spec, which has no line feed. A line without words says nothing. What the reading
/// is after an `Err` isn't said.
pub fn take_spec_line(reading: &mut SpecReading, line: &[u8]) -> Result<(), ProblemCause>
    ensures { Takes (with_spec_line (spec_reading_of reading.old) (words_of line.now))
        result (spec_reading_of reading.new) }
{
    let Some((word, end)) = next_word(line, 0) else {
        return Ok(());
    };
    if reading.problem.has_ended() {
        return Err(ProblemCause::Syntax);
    }
    match spec_kind_of(word) {
        None => take_other(reading, line),
        Some(kind) => take_line_of(reading, kind, &line[end..]),
    }
}
