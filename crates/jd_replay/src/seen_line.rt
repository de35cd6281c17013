//! The line of what is seen of a run, in words of the same form as a start's.
ghost use Rattle.std.specs.Prelude.{◌≡◌, ℕ, ◌+◌, ◌≤◌, ◌∷◌, [], ◌++◌, length, take, OnOk, if◌then◌else◌};
ghost use Rattle.std.specs.Io.KnownBytes.{Appends};
ghost use Rattle.arrayvec.specs.ArrayString.{array_string_len};
ghost use Rattle.hp_io.specs.Causes.{HasCause};
ghost use Rattle.jd_text.specs.Digits.{hexadecimal};
ghost use Rattle.jd_model.specs.ProblemWriter.{chosen};
ghost use Rattle.jd_model.specs.StartTexts.{memory_words};
ghost use Rattle.jd_model.specs.Seen.{end_words, part_words, seen_words, seen_text, seen_line};
ghost use Rattle.jd_start.specs.Parts.{marks_of};
ghost use Rattle.jd_problem.specs.Problems.{problem_of};
ghost use Rattle.jd_start.specs.Starts.{start_data};
ghost use Rattle.jd_start.specs.Written.{spaced};
ghost use Rattle.jd_replay.specs.Phrases.{phrases};
ghost use Rattle.jd_replay.specs.Seen.{seen_of};

use crate::seen::Seen;
use arrayvec::ArrayString;
use hp_io::{Failed, Sink, write_whole};
use hp_model::End;
use jd_numbers::push_decimal;
use jd_problem::Problem;
use jd_start::{
    CONTENT_NUMBERS, MOST_NIBBLES, Nibbles, Part, Parts, Start, content_numbers, part_at,
    part_name, push_nibbles, push_number, push_word,
};

/// Room for the line of what is seen.
const ROOM: usize = 1536;

/// Adds the words of an end.
fn push_end(text: &mut ArrayString<ROOM>, end: End)
    requires { array_string_len text.old + 27 ≤ ROOM }
    ensures text { text.new.bytes ≡ text.old.bytes ++ spaced (end_words end) }
    ensures len { array_string_len text.new ≤ array_string_len text.old + 27 }
{
    match end {
        End::Return => push_word(text, "return"),
        End::Halt => push_word(text, "halt"),
        End::Error(n) => {
            push_word(text, "error");
            text.push(' ');
            push_decimal(text, u64::from(n));
        }
    }
}

/// Adds a part's name and number, if it is shown.
fn push_part(text: &mut ArrayString<ROOM>, shown: bool, name: &str, n: u64)
    requires { array_string_len text.old + length name.now + 18 ≤ ROOM }
    ensures text { text.new.bytes ≡ text.old.bytes
        ++ phrases (if shown then (name.now ∷ hexadecimal n ∷ []) ∷ [] else []) }
    ensures len { array_string_len text.new ≤ array_string_len text.old + length name.now + 18 }
{
    if shown {
        push_word(text, name);
        push_number(text, n);
    }
}

/// Adds the words of the register nibbles, if they are shown.
fn push_memory(text: &mut ArrayString<ROOM>, shown: bool, nibbles: &Nibbles)
    requires { array_string_len text.old + MOST_NIBBLES + 3 ≤ ROOM }
    ensures text { text.new.bytes ≡ text.old.bytes
        ++ phrases (if shown then memory_words nibbles.now ∷ [] else []) }
    ensures len { array_string_len text.new ≤ array_string_len text.old + MOST_NIBBLES + 3 }
{
    if shown {
        push_word(text, "M");
        push_nibbles(text, nibbles);
    }
}

/// Adds the words of the observed parts.
fn push_parts(text: &mut ArrayString<ROOM>, observed: &Parts, start: &Start)
    requires { array_string_len text.old + 1461 ≤ ROOM }
    ensures text { text.new.bytes ≡ text.old.bytes
        ++ phrases (chosen (marks_of observed.now) (part_words (start_data start.now))) }
    ensures len { array_string_len text.new ≤ array_string_len text.old + 1461 }
{
    let numbers = content_numbers(start);
    for place in 0..CONTENT_NUMBERS {
        push_part(
            text,
            observed.contains(part_at(place)),
            part_name(place),
            numbers[place],
        );
    }
    push_memory(text, observed.contains(Part::M), &start.nibbles);
}

/// Adds the words of what is seen.
fn push_seen(text: &mut ArrayString<ROOM>, observed: &Parts, seen: &Seen)
    requires { array_string_len text.old + 1488 ≤ ROOM }
    ensures text { text.new.bytes ≡ text.old.bytes
        ++ spaced (seen_words (marks_of observed.now) (seen_of seen.now)) }
    ensures len { array_string_len text.new ≤ array_string_len text.old + 1488 }
{
    match seen {
        Seen::Late => push_word(text, "late"),
        Seen::Ended(end, start) => {
            push_end(text, *end);
            push_parts(text, observed, start);
        }
    }
}

/// The line of what is seen after the routine's name, with its line end: a blank before each word.
pub fn seen_text(problem: &Problem, seen: &Seen) -> ArrayString<ROOM>
    ensures { result.bytes ≡ seen_text (marks_of problem.now.observed) (seen_of seen.now) }
{
    let mut text = ArrayString::new();
    push_seen(&mut text, &problem.observed, seen);
    text.push('\n');
    text
}

/// Writes the line of what is seen of the routine with a name.
pub fn write_seen<K: Sink>(
    problem: &Problem,
    name: &str,
    seen: &Seen,
    sink: &mut K,
) -> Result<(), Failed>
    ensures whole { OnOk result (Appends (K.written sink.old) (K.written sink.new)
        (seen_line (problem_of problem.now) name.now (seen_of seen.now))) }
    ensures part { (n : ℕ) × Appends (K.written sink.old) (K.written sink.new)
        (take n (seen_line (problem_of problem.now) name.now (seen_of seen.now))) }
    ensures cause { HasCause (K.faults sink.old) (K.faults sink.new) result }
{
    write_whole(sink, name.as_bytes())?;
    write_whole(sink, seen_text(problem, seen).as_str().as_bytes())
}
