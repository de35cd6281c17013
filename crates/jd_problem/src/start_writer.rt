//! The canonical text of a start, in one text of fixed room that is handed to the sink at once.
ghost use Rattle.std.specs.Prelude.{◌≡◌, ℕ, ◌+◌, ◌<◌, ◌≤◌, ◌∷◌, [], ◌++◌, true, take, codes, Ok, OnOk};
ghost use Rattle.std.specs.Io.KnownBytes.{Appends};
ghost use Rattle.arrayvec.specs.ArrayString.{array_string_len};
ghost use Rattle.hp_io.specs.Causes.{HasCause};
ghost use Rattle.jd_text.specs.Words.{line};
ghost use Rattle.jd_model.specs.Problems.{allows};
ghost use Rattle.jd_model.specs.StartTexts.{flags_text, memory_words, start_of_text, start_text};
ghost use Rattle.jd_problem.specs.Problems.{problem_of};
ghost use Rattle.jd_start.specs.Starts.{start_data};

use crate::problem::Problem;
use arrayvec::ArrayString;
use hp_io::{Failed, Sink, write_whole};
use jd_numbers::flag_digit;
use jd_start::{MOST_NIBBLES, Nibbles, Start, push_nibbles, push_number_line};

/// Room for the text of any start.
const ROOM: usize = 1536;

/// Adds the digits of the flags, from flag 5 to flag 0.
fn push_flags(text: &mut ArrayString<ROOM>, flags: &[bool; 6])
    requires { array_string_len text.old + 6 ≤ ROOM }
    ensures text { text.new.bytes ≡ text.old.bytes ++ flags_text flags.now }
    ensures len { array_string_len text.new ≤ array_string_len text.old + 6 }
{
    for place in 0..6 {
        text.push(flag_digit(flags[5 - place]));
    }
}

/// Adds the line of the flags.
fn push_flags_line(text: &mut ArrayString<ROOM>, flags: &[bool; 6])
    requires { array_string_len text.old + 13 ≤ ROOM }
    ensures text { text.new.bytes ≡ text.old.bytes ++ line (codes "flags" ∷ flags_text flags.now ∷ []) }
    ensures len { array_string_len text.new ≤ array_string_len text.old + 13 }
{
    text.push_str("flags ");
    push_flags(text, flags);
    text.push('\n');
}

/// Adds the line of the register nibbles.
fn push_memory_line(text: &mut ArrayString<ROOM>, nibbles: &Nibbles)
    requires { array_string_len text.old + MOST_NIBBLES + 3 ≤ ROOM }
    ensures text { text.new.bytes ≡ text.old.bytes ++ line (memory_words nibbles.now) }
    ensures len { array_string_len text.new ≤ array_string_len text.old + MOST_NIBBLES + 3 }
{
    text.push('M');
    push_nibbles(text, nibbles);
    text.push('\n');
}

/// The canonical text of a start.
fn start_text(start: &Start) -> ArrayString<ROOM>
    ensures { result.bytes ≡ start_text (start_data start.now) }
{
    let content = &start.content;
    let mut text = ArrayString::new();
    text.push_str("start\n");
    push_number_line(&mut text, "X", content.x);
    push_number_line(&mut text, "Y", content.y);
    push_number_line(&mut text, "Z", content.z);
    push_number_line(&mut text, "T", content.t);
    push_number_line(&mut text, "L", content.l);
    push_number_line(&mut text, "I", content.i);
    push_flags_line(&mut text, &content.flags);
    push_memory_line(&mut text, &start.nibbles);
    text.push_str("end\n");
    text
}

/// Writes the canonical text of a start that a problem allows, in ten lines: the numbers in
/// hexadecimal digits, the flags from flag 5 to flag 0, and the nibbles from nibble 0 up to the last
/// one that isn't zero.
pub fn write_start<K: Sink>(problem: &Problem, start: &Start, sink: &mut K) -> Result<(), Failed>
    requires { allows (problem_of problem.now) (start_data start.now) ≡ true }
    ensures whole { OnOk result (Appends (K.written sink.old) (K.written sink.new)
        (start_text (start_data start.now))) }
    ensures part { (n : ℕ) × Appends (K.written sink.old) (K.written sink.new)
        (take n (start_text (start_data start.now))) }
    ensures cause { HasCause (K.faults sink.old) (K.faults sink.new) result }
    ensures reads_back { start_of_text (problem_of problem.now) (start_text (start_data start.now))
        ≡ Ok (start_data start.now) }
{
    write_whole(sink, start_text(start).as_str().as_bytes())
}
