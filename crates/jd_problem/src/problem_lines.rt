// The lines of a problem, one function for each sort: it judges the line by what was read before,
// and sets what the line says.
ghost use Rattle.std.specs.Prelude.{◌≡◌, ◌<◌, ◌∷◌, [], ◌++◌, true, length, OnOk, IfErr, Some, None, slice_set};
ghost use Rattle.jd_text.specs.Words.{words_of};
ghost use Rattle.jd_text.specs.Readings.{Takes};
ghost use Rattle.jd_model.specs.Problems.{part_limit};
ghost use Rattle.jd_model.specs.ProblemLines.{place_of};
ghost use Rattle.jd_model.specs.ProblemTexts.{assembly_line, with_problem_line};
ghost use Rattle.jd_start.specs.Parts.{place_of as part_place, values_of};
ghost use Rattle.jd_problem.specs.Problems.{problem_of};
ghost use Rattle.jd_problem.specs.Readings.{reading_of, order_cause, is_number_line, is_section_word, TakesKind};

use crate::line_kinds::{is_in_range, kind_of, place_after, place_of, set_number, version_said};
use crate::line_words::{assumption, observed_parts, one_number, part_and_value};
use crate::problem::Problem;
use crate::reading::Reading;
use hp_asm::take_line;
use jd_model::{Assume, LineKind, ProblemCause};
use jd_start::{MOST_ASSUMED, Part};
use jd_text::next_word;

/// Whether a line of a kind is the one whose place is due.
fn check_order(due: u8, kind: LineKind) -> Result<(), ProblemCause>
    ensures due { OnOk result (due ≡ place_of kind) }
    ensures in_order { OnOk result (order_cause due kind ≡ None) }
    ensures cause { IfErr result (λ cause. order_cause due kind ≡ Some cause) }
{
    let place = place_of(kind);
    if place < due {
        Err(ProblemCause::Repeated)
    } else if due < place {
        Err(ProblemCause::Missing)
    } else {
        Ok(())
    }
}

/// A line of one number.
fn take_number(reading: &mut Reading, kind: LineKind, rest: &[u8]) -> Result<(), ProblemCause>
    requires { is_number_line kind ≡ true }
    ensures { TakesKind reading.old kind rest.now result reading.new }
{
    let Some(n) = one_number(rest) else {
        return Err(ProblemCause::Syntax);
    };
    check_order(reading.due, kind)?;
    if !is_in_range(kind, n) {
        return Err(ProblemCause::Range);
    }
    set_number(&mut reading.problem, kind, n);
    reading.due = place_after(kind, reading.version);
    reading.version = version_said(kind, n, reading.version);
    Ok(())
}

/// An `observe` line.
fn take_observed(reading: &mut Reading, rest: &[u8]) -> Result<(), ProblemCause>
    ensures { TakesKind reading.old LineKind.Observe rest.now result reading.new }
{
    let Some((parts, twice)) = observed_parts(rest) else {
        return Err(ProblemCause::Syntax);
    };
    if twice {
        return Err(ProblemCause::Repeated);
    }
    check_order(reading.due, LineKind::Observe)?;
    reading.problem.observed = parts;
    reading.due = place_after(LineKind::Observe, reading.version);
    Ok(())
}

/// Fixes a part.
fn fix(problem: &mut Problem, part: Part, value: u64)
    requires { value < part_limit problem.old.size.bits (part_place part) }
    ensures fixed { problem_of problem.new
        ≡ record (problem_of problem.old) { fixed = slice_set (values_of problem.old.fixed) (part_place part) (Some value) } }
{
    problem.fixed.set(part, value);
}

/// A `fix` line, which is well-formed only before `assume` lines and `first`.
fn take_fixed(reading: &mut Reading, rest: &[u8]) -> Result<(), ProblemCause>
    ensures { TakesKind reading.old LineKind.Fix rest.now result reading.new }
{
    let Some((part, value)) = part_and_value(rest) else {
        return Err(ProblemCause::Syntax);
    };
    if !reading.is_before_first() || !reading.problem.assumed.as_slice().is_empty() {
        return Err(ProblemCause::Syntax);
    }
    if reading.problem.fixed.value(part).is_some() {
        return Err(ProblemCause::Repeated);
    }
    if reading.due < place_of(LineKind::Fix) {
        return Err(ProblemCause::Missing);
    }
    if !part.can_be_fixed_at(reading.problem.size, value) {
        return Err(ProblemCause::Range);
    }
    fix(&mut reading.problem, part, value);
    Ok(())
}

/// Adds an assumption.
fn assume(problem: &mut Problem, assume: Assume)
    requires { length problem.old.assumed < MOST_ASSUMED }
    ensures { problem_of problem.new
        ≡ record (problem_of problem.old) { assumed = problem.old.assumed ++ assume ∷ [] } }
{
    problem.assumed.push(assume);
}

/// An `assume` line, which is well-formed only before `first`.
fn take_assumed(reading: &mut Reading, rest: &[u8]) -> Result<(), ProblemCause>
    ensures { TakesKind reading.old LineKind.Assume rest.now result reading.new }
{
    let Some(assumption) = assumption(rest) else {
        return Err(ProblemCause::Syntax);
    };
    if !reading.is_before_first() {
        return Err(ProblemCause::Syntax);
    }
    if reading.due < place_of(LineKind::Assume) {
        return Err(ProblemCause::Missing);
    }
    if reading.problem.assumed.as_slice().len() >= MOST_ASSUMED {
        return Err(ProblemCause::Range);
    }
    assume(&mut reading.problem, assumption);
    Ok(())
}

/// A line of a section word alone.
fn take_section(reading: &mut Reading, kind: LineKind, rest: &[u8]) -> Result<(), ProblemCause>
    requires { is_section_word kind ≡ true }
    ensures { TakesKind reading.old kind rest.now result reading.new }
{
    if next_word(rest, 0).is_some() {
        return Err(ProblemCause::Syntax);
    }
    check_order(reading.due, kind)?;
    reading.due = place_after(kind, reading.version);
    Ok(())
}

/// A line whose first word is of a kind, by the words that follow. What the reading is after an `Err`
/// isn't said.
pub fn take_kind(reading: &mut Reading, kind: LineKind, rest: &[u8]) -> Result<(), ProblemCause>
    ensures { TakesKind reading.old kind rest.now result reading.new }
{
    match kind {
        LineKind::Observe => take_observed(reading, rest),
        LineKind::Fix => take_fixed(reading, rest),
        LineKind::Assume => take_assumed(reading, rest),
        LineKind::First | LineKind::Second | LineKind::End => take_section(reading, kind, rest),
        _ => take_number(reading, kind, rest),
    }
}

/// A line of a routine: one operation as assembly. What the reading is after an `Err` isn't said.
pub fn take_assembly(reading: &mut Reading, line: &[u8]) -> Result<(), ProblemCause>
    ensures { Takes (assembly_line (reading_of reading.old) (words_of line.now))
        result (reading_of reading.new) }
{
    if reading.is_before_first() {
        return Err(ProblemCause::Syntax);
    }
    let taken = if reading.is_in_first() {
        take_line(&mut reading.problem.first, line)
    } else {
        take_line(&mut reading.problem.second, line)
    };
    match taken {
        Ok(()) => Ok(()),
        Err(cause) => Err(ProblemCause::Asm(cause)),
    }
}

/// One more line of a problem, which has no line feed. A line without words says nothing. What the
/// reading is after an `Err` isn't said.
pub fn take_problem_line(reading: &mut Reading, line: &[u8]) -> Result<(), ProblemCause>
    ensures { Takes (with_problem_line (reading_of reading.old) (words_of line.now))
        result (reading_of reading.new) }
{
    let Some((word, end)) = next_word(line, 0) else {
        return Ok(());
    };
    match kind_of(reading.version, word) {
        None => take_assembly(reading, line),
        Some(kind) => take_kind(reading, kind, &line[end..]),
    }
}
