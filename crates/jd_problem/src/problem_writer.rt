//! The canonical text of a problem, in one text of fixed room that is handed to the sink at once.
ghost use Rattle.std.specs.Prelude.{◌≡◌, ℕ, ◌+◌, ◌≤◌, ◌∷◌, [], ◌++◌, length, map, take, codes, decimal, Ok, OnOk, if◌then◌else◌};
ghost use Rattle.std.specs.Io.KnownBytes.{Appends};
ghost use Rattle.arrayvec.specs.ArrayString.{array_string_len};
ghost use Rattle.hp_io.specs.Causes.{HasCause};
ghost use Rattle.hp_model.specs.State.{radix};
ghost use Rattle.jd_model.specs.Assembly.{IsRoutine};
ghost use Rattle.jd_text.specs.Words.{line, written};
ghost use Rattle.jd_model.specs.ProblemLines.{part_names};
ghost use Rattle.jd_model.specs.ProblemWriter.{version, version_number, chosen, fix_line, fix_lines, against_word, assume_line, memory_lines, machine_lines, bound_lines, routine_lines, mode_number, header_lines, problem_lines, problem_text};
ghost use Rattle.jd_model.specs.ProblemTexts.{problem_of as problem_of_text};
ghost use Rattle.jd_model.specs.Problems.{IsProblem};
ghost use Rattle.jd_start.specs.Parts.{marks_of, values_of};
ghost use Rattle.jd_problem.specs.Problems.{problem_of};
ghost use Rattle.jd_start.specs.Written.{spaced};

use crate::problem::Problem;
use arrayvec::ArrayString;
use hp_asm::{Routine, list};
use hp_io::{Failed, Sink, write_whole};
use hp_model::Extent;
use hp_words::{Mode, radix};
use jd_model::{Against, Assume, Version};
use jd_start::{
    Fixed, MOST_ASSUMED, PART_COUNT, Parts, num_part_name, part_at, part_name, push_decimal_line,
    push_number, push_word, relation_name,
};

/// Room for the text of any problem.
const ROOM: usize = 6144;

/// Adds a blank and a name, if it is marked.
fn push_name(text: &mut ArrayString<ROOM>, marked: bool, name: &str)
    requires { array_string_len text.old + length name.now + 1 ≤ ROOM }
    ensures text { text.new.bytes ≡ text.old.bytes ++ spaced (if marked then name.now ∷ [] else []) }
    ensures len { array_string_len text.new ≤ array_string_len text.old + length name.now + 1 }
{
    if marked {
        push_word(text, name);
    }
}

/// Adds the names of parts, with a blank before each.
fn push_names(text: &mut ArrayString<ROOM>, parts: &Parts)
    requires { array_string_len text.old + 39 ≤ ROOM }
    ensures text { text.new.bytes ≡ text.old.bytes ++ spaced (chosen (marks_of parts.now) part_names) }
    ensures len { array_string_len text.new ≤ array_string_len text.old + 39 }
{
    for place in 0..PART_COUNT {
        push_name(text, parts.contains(part_at(place)), part_name(place));
    }
}

/// Adds the line of the observed parts.
fn push_observed(text: &mut ArrayString<ROOM>, observed: &Parts)
    requires { array_string_len text.old + 47 ≤ ROOM }
    ensures text { text.new.bytes ≡ text.old.bytes
        ++ line (codes "observe" ∷ chosen (marks_of observed.now) part_names) }
    ensures len { array_string_len text.new ≤ array_string_len text.old + 47 }
{
    text.push_str("observe");
    push_names(text, observed);
    text.push('\n');
}

/// Adds the line of a part that is fixed at a value, if it is.
fn push_fix(text: &mut ArrayString<ROOM>, name: &str, value: Option<u64>)
    requires { array_string_len text.old + length name.now + 22 ≤ ROOM }
    ensures text { text.new.bytes ≡ text.old.bytes ++ written (fix_line name.now value) }
    ensures len { array_string_len text.new ≤ array_string_len text.old + length name.now + 22 }
{
    if let Some(n) = value {
        text.push_str("fix");
        push_word(text, name);
        push_number(text, n);
        text.push('\n');
    }
}

/// Adds the lines of the parts that are fixed.
fn push_fixed(text: &mut ArrayString<ROOM>, fixed: &Fixed)
    requires { array_string_len text.old + 312 ≤ ROOM }
    ensures text { text.new.bytes ≡ text.old.bytes
        ++ written (fix_lines part_names (values_of fixed.now)) }
    ensures len { array_string_len text.new ≤ array_string_len text.old + 312 }
{
    for place in 0..PART_COUNT {
        push_fix(text, part_name(place), fixed.value(part_at(place)));
    }
}

/// Adds the lines of a routine, at most 203 of at most 9 bytes.
fn push_routine(text: &mut ArrayString<ROOM>, routine: &Routine)
    requires { array_string_len text.old + 1827 ≤ ROOM }
    ensures text { text.new.bytes ≡ text.old.bytes ++ written (routine_lines routine.now) }
    ensures len { array_string_len text.new ≤ array_string_len text.old + 1827 }
    ensures routine { IsRoutine routine.now }
{
    text.push_str(list(routine).as_str());
}

/// The number of a mode.
fn mode_number(mode: Mode) -> u64
    ensures { result ≡ mode_number mode }
{
    match mode {
        Mode::Unsigned => 0,
        Mode::Ones => 1,
        Mode::Twos => 2,
    }
}

/// The version of a problem's text: 1 where the memory is standard and nothing is assumed.
fn version(problem: &Problem) -> Version
    ensures { result ≡ version (problem_of problem.now) }
{
    match problem.memory {
        Extent::Standard => {
            if problem.assumed.as_slice().is_empty() {
                Version::One
            } else {
                Version::Two
            }
        }
        Extent::Large => Version::Two,
    }
}

/// The number of a version.
fn version_number(version: Version) -> u64
    ensures { result ≡ version_number version }
{
    match version {
        Version::One => 1,
        Version::Two => 2,
    }
}

/// Adds the lines from that of the version to that of the base.
fn push_machine(text: &mut ArrayString<ROOM>, version: Version, problem: &Problem)
    requires { array_string_len text.old + 107 ≤ ROOM }
    ensures text { text.new.bytes ≡ text.old.bytes
        ++ written (machine_lines version (problem_of problem.now)) }
    ensures len { array_string_len text.new ≤ array_string_len text.old + 107 }
{
    push_decimal_line(text, "problem", version_number(version));
    push_decimal_line(text, "word", u64::from(problem.size.bits));
    push_decimal_line(text, "mode", mode_number(problem.mode));
    push_decimal_line(text, "base", radix(problem.base));
}

/// Adds the line of the memory, which version 1 hasn't.
fn push_memory(text: &mut ArrayString<ROOM>, version: Version, memory: Extent)
    requires { array_string_len text.old + 28 ≤ ROOM }
    ensures text { text.new.bytes ≡ text.old.bytes ++ written (memory_lines version memory) }
    ensures len { array_string_len text.new ≤ array_string_len text.old + 28 }
{
    if version == Version::Two {
        push_decimal_line(text, "memory", u64::from(memory.bytes()));
    }
}

/// Adds the lines from that of the steps to that of the observed parts.
fn push_bounds(text: &mut ArrayString<ROOM>, problem: &Problem)
    requires { array_string_len text.old + 129 ≤ ROOM }
    ensures text { text.new.bytes ≡ text.old.bytes ++ written (bound_lines (problem_of problem.now)) }
    ensures len { array_string_len text.new ≤ array_string_len text.old + 129 }
{
    push_decimal_line(text, "steps", u64::from(problem.steps));
    push_decimal_line(text, "paths", u64::from(problem.paths));
    push_decimal_line(text, "budget", u64::from(problem.budget));
    push_observed(text, &problem.observed);
}

/// Adds the lines before those of the fixed parts.
fn push_headers(text: &mut ArrayString<ROOM>, problem: &Problem)
    requires { array_string_len text.old + 264 ≤ ROOM }
    ensures text { text.new.bytes ≡ text.old.bytes
        ++ written (header_lines (version (problem_of problem.now)) (problem_of problem.now)) }
    ensures len { array_string_len text.new ≤ array_string_len text.old + 264 }
{
    let version = version(problem);
    push_machine(text, version, problem);
    push_memory(text, version, problem.memory);
    push_bounds(text, problem);
}

/// Adds a blank and what a part is compared with.
fn push_against(text: &mut ArrayString<ROOM>, right: Against)
    requires { array_string_len text.old + 17 ≤ ROOM }
    ensures text { text.new.bytes ≡ text.old.bytes ++ 32 ∷ against_word right }
    ensures len { array_string_len text.new ≤ array_string_len text.old + 17 }
{
    match right {
        Against::Part(part) => push_word(text, num_part_name(part)),
        Against::Number(number) => push_number(text, number),
    }
}

/// Adds the line of an assumption.
fn push_assume(text: &mut ArrayString<ROOM>, assume: &Assume)
    requires { array_string_len text.old + 29 ≤ ROOM }
    ensures text { text.new.bytes ≡ text.old.bytes ++ line (assume_line assume.now) }
    ensures len { array_string_len text.new ≤ array_string_len text.old + 29 }
{
    text.push_str("assume");
    push_word(text, num_part_name(assume.left));
    push_word(text, relation_name(assume.relation));
    push_against(text, assume.right);
    text.push('\n');
}

/// Adds the lines of assumptions.
fn push_assumed(text: &mut ArrayString<ROOM>, assumed: &[Assume])
    requires few { length assumed.now ≤ MOST_ASSUMED }
    requires room { array_string_len text.old + 1856 ≤ ROOM }
    ensures text { text.new.bytes ≡ text.old.bytes ++ written (map assume_line assumed.now) }
    ensures len { array_string_len text.new ≤ array_string_len text.old + 1856 }
{
    for assume in assumed {
        push_assume(text, assume);
    }
}

/// The canonical text of a problem.
fn problem_text(problem: &Problem) -> ArrayString<ROOM>
    ensures text { result.bytes ≡ problem_text (problem_of problem.now) }
    ensures ranges { IsProblem (problem_of problem.now) }
{
    let mut text = ArrayString::new();
    push_headers(&mut text, problem);
    push_fixed(&mut text, &problem.fixed);
    push_assumed(&mut text, problem.assumed.as_slice());
    text.push_str("first\n");
    push_routine(&mut text, &problem.first);
    text.push_str("second\n");
    push_routine(&mut text, &problem.second);
    text.push_str("end\n");
    text
}

/// Writes the canonical text of a problem: the headers, the fixed parts in their order, the
/// assumptions, and the two routines, all on lines of their own with one blank between two words. It
/// is of version 1 exactly where the memory is standard and nothing is assumed.
pub fn write_problem<K: Sink>(problem: &Problem, sink: &mut K) -> Result<(), Failed>
    ensures whole { OnOk result (Appends (K.written sink.old) (K.written sink.new)
        (problem_text (problem_of problem.now))) }
    ensures part { (n : ℕ) × Appends (K.written sink.old) (K.written sink.new)
        (take n (problem_text (problem_of problem.now))) }
    ensures cause { HasCause (K.faults sink.old) (K.faults sink.new) result }
    ensures reads_back { problem_of_text (problem_text (problem_of problem.now))
        ≡ Ok (problem_of problem.now, length (problem_lines (problem_of problem.now))) }
{
    write_whole(sink, problem_text(problem).as_str().as_bytes())
}
