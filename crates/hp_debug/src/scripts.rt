//! Scripts for the debugger. Every line is looked at before the first is done, so that nothing is written
//! for a script with a bad line; then each is done in turn and its line written at once, so that no text is
//! held.
ghost use Rattle.std.specs.Prelude.{◌≡◌, ◌+◌, ◌-◌, ◌<◌, ◌≤◌, ◌^◌, ◌++◌, ◌∷◌, [], true, ℕ, length, take, Ok, Err, IfOk, OnOk, OnErr, IfSome, Option};
ghost use Rattle.std.specs.Io.KnownBytes.{Appends};
ghost use Rattle.hp_io.specs.Causes.{HasCause, Rose};
ghost use Rattle.jd_text.specs.Words.{word_lines, words_of};
ghost use Rattle.arrayvec.specs.ArrayString.{array_string_len};
ghost use Rattle.hp_debug.specs.Scripts.{text_from, initial_debugger};
ghost use Rattle.hp_debug.specs.Outcomes.{HasOutcome};

use crate::debuggers::Debugger;
use crate::execution::do_line;
use crate::parsing::parse_line;
use hp_io::{Failed, NoMemory, Sink, write_whole};
use hp_model::Extent;
use hp_run::Calculator;
use jd_readers::{TakesLines, read_lines};
use jd_text::next_line;
use std::alloc::Global;

/// How many states a script's debugger records: 256 of 736 bytes, 188,416 bytes.
const DEPTH: u16 = 256;

/// How the work on a script came out.
#[derive(Clone, Copy, Debug, PartialEq, Eq)]
pub enum Debugged {
    /// Its whole text is written.
    Done,
    /// This line, counted from 1, is the first that is none of a script's. Nothing is written.
    BadLine(u32),
    /// A write failed. What was written by then begins the script's text.
    WriteFault,
}

/// A look at the lines of a script, of which none is done: whether the first is still to come.
#[derive(Drop)]
struct LineChecker {
    first: bool,
}

impl TakesLines for LineChecker {
    ghost use Rattle.std.specs.Prelude.{Bool, false};
    ghost use Rattle.hp_debug.specs.Scripts.{checked_line};

    type Cause = ();

    ghost State = { Bool };

    ghost state = { λ c. c.first };

    ghost with_line = { λ _. checked_line };

    ghost is_whole = { λ _. false };

    fn take_line(&mut self, line: &[u8]) -> Result<(), ()> {
        if parse_line(line, self.first).is_none() {
            return Err(());
        }
        self.first = false;
        Ok(())
    }
}

/// Does the lines of a script, and writes the line of each.
fn do_lines<K: Sink>(debugger: &mut Debugger, bytes: &[u8], sink: &mut K) -> Result<(), Failed>
    ensures whole { OnOk result (Appends (K.written sink.old) (K.written sink.new)
        (text_from true debugger.old (word_lines bytes.now))) }
    ensures part { (n : ℕ) × Appends (K.written sink.old) (K.written sink.new)
        (take n (text_from true debugger.old (word_lines bytes.now))) }
    ensures cause { HasCause (K.faults sink.old) (K.faults sink.new) result }
{
    let mut at = 0;
    let mut first = true;
    'lines: while let Some((line, next)) = next_line(bytes, at) {
        let parsed = match parse_line(line, first) {
            None => return Ok(()),
            Some(parsed) => parsed,
        };
        let mut text = do_line(debugger, line, parsed);
        text.push('\n');
        write_whole(sink, text.as_str().as_bytes())?;
        at = next;
        first = false;
    }
    Ok(())
}

/// Works on a script with a debugger of a new calculator of 203 bytes, or of the one that the script names,
/// and writes a line for each of its lines. All memory, 188,416 bytes, is taken before the first write.
pub fn debug<K: Sink>(alloc: Global, bytes: &[u8], sink: &mut K) -> Result<Debugged, NoMemory>
    requires { length bytes.now + 1 < 2 ^ 32 }
    ensures debugged { IfOk result (λ debugged.
        HasOutcome bytes.now debugged (K.written sink.old) (K.written sink.new)) }
    ensures bad_line { IfOk result (λ debugged. (line : ℕ) → debugged ≡ Debugged.BadLine line → sink.new ≡ sink.old) }
    ensures no_memory { OnErr result (sink.new ≡ sink.old) }
    ensures write_cause { result ≡ Ok Debugged.WriteFault → Rose (K.faults sink.old) (K.faults sink.new) }
    ensures write_faults { K.faults sink.old ≤ K.faults sink.new }
{
    if let Err((line, ())) = read_lines(&mut LineChecker { first: true }, bytes) {
        return Ok(Debugged::BadLine(line));
    }
    let mut debugger = match Debugger::new(alloc, Calculator::new(Extent::Standard), DEPTH) {
        Ok(debugger) => debugger,
        Err(NoMemory) => return Err(NoMemory),
    };
    match do_lines(&mut debugger, bytes, sink) {
        Ok(()) => Ok(Debugged::Done),
        Err(Failed) => Ok(Debugged::WriteFault),
    }
}
