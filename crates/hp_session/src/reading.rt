// A key file that is being read, byte by byte: words press keys as soon as they end, and a line's end
// writes its display. No line is kept.
ghost use Rattle.std.specs.Prelude.{◌≡◌, ◌+◌, ◌-◌, ◌^◌, ◌<◌, ◌≤◌, ◌∷◌, [], ◌++◌, length, Some, None, OnOk, IfErr, MatchResult};
ghost use Rattle.std.specs.Io.KnownBytes.{Appends};
ghost use Rattle.hp_io.specs.Causes.{Rose};
ghost use Rattle.hp_model.specs.Display.{display as display_of};
ghost use Rattle.hp_model.specs.Session.{is_separator as separates, machine_named};
ghost use Rattle.hp_run.specs.Seen.{calculator_of};
ghost use Rattle.arrayvec.specs.ArrayString.{array_string_len};
ghost use Rattle.hp_session.specs.Progress.{nothing_read, word_ended, letter_added, line_ended};
ghost use Rattle.hp_session.specs.Steps.{Goes, Halts, Finishes, IsBadWord, CutsLine};

use crate::sessions::SessionEnd;
use arrayvec::{ArrayString, ArrayVec};
use hp_display::display;
use hp_io::{Sink, write_whole};
use hp_keys::Key;
use hp_model::Extent;
use hp_run::{Calculator, press};
use std::marker::Model;
use std::mem;

/// Whether a byte stands between words.
fn is_separator(byte: u8) -> bool
    ensures { result ≡ separates byte }
{
    matches!(byte, b' ' | b'\t' | b'\r' | b'\n')
}

/// The text of a calculator's display.
fn show(calculator: &Calculator) -> ArrayString<32>
    ensures text { result.bytes ≡ display_of (calculator_of calculator.now) }
    ensures room { array_string_len result < 32 }
{
    display(
        &calculator.machine,
        calculator.prefix.shift(),
        calculator.program,
        calculator.view,
    )
}

/// What the bytes so far have done: the calculator, the number of the line, of what is open the letters
/// of the word and whether the line has a byte, and whether the first word of the first line is still to
/// end, which may name the machine.
#[derive(Drop)]
pub struct Reading {
    calculator: Calculator,
    line: u32,
    word: ArrayVec<u8, 8>,
    begun: bool,
    first: bool,
}

impl Model for Reading {
    ghost use Rattle.hp_run.specs.Seen.{calculator_of};
    ghost use Rattle.hp_session.specs.Progress.{Progress};

    ghost Value = { Progress };

    ghost view = { λ r. record { calculator = calculator_of r.calculator; line = r.line; word = r.word.items; begun = r.begun; first = r.first } };
}

impl Reading {
    /// Nothing is read.
    pub fn new() -> Reading
        ensures { result ≡ nothing_read }
    {
        Reading {
            calculator: Calculator::new(Extent::Standard),
            line: 1,
            word: ArrayVec::new(),
            begun: false,
            first: true,
        }
    }

    /// The session ends at the open word.
    fn bad_word(&mut self) -> SessionEnd
        ensures { IsBadWord result self.old.line self.old.word }
    {
        SessionEnd::BadWord {
            line: self.line,
            word: mem::replace(&mut self.word, ArrayVec::new()),
        }
    }

    /// The machine that the open word names, where it is the first word of the first line.
    fn machine_named(&self) -> Option<Extent>
        ensures { result ≡ machine_named self.now.first self.now.word }
    {
        if self.first {
            Extent::of_word(self.word.as_slice())
        } else {
            None
        }
    }

    /// The open word has ended. If it has a letter, it begins with the machine that it names, or its key
    /// is pressed.
    fn end_word(&mut self) -> Result<(), SessionEnd>
        ensures { MatchResult result
            (λ _. word_ended self.old ≡ Some self.new)
            (λ end. (word_ended self.old ≡ None) × IsBadWord end self.old.line self.old.word) }
    {
        if self.word.is_empty() {
            return Ok(());
        }
        if let Some(extent) = self.machine_named() {
            self.calculator = Calculator::new(extent);
        } else if let Some(key) = Key::of_word(self.word.as_slice()) {
            press(&mut self.calculator, key);
        } else {
            return Err(self.bad_word());
        }
        self.word.clear();
        self.first = false;
        Ok(())
    }

    /// The open word has a letter more, and is bad if it has eight.
    fn add_letter(&mut self, byte: u8) -> Result<(), SessionEnd>
        requires { length self.old.word < 8 }
        ensures { MatchResult result
            (λ _. (self.new ≡ letter_added byte self.old) × (length self.new.word < 8))
            (λ end. IsBadWord end self.old.line (self.old.word ++ byte ∷ []) × (length self.old.word ≡ 7)) }
    {
        self.word.push(byte);
        self.begun = true;
        if self.word.is_full() {
            return Err(self.bad_word());
        }
        Ok(())
    }

    /// The line has ended: its display is written.
    fn end_line<K: Sink>(&mut self, sink: &mut K) -> Result<(), SessionEnd>
        requires { self.old.line < 2 ^ 32 - 1 }
        ensures state { OnOk result (self.new ≡ line_ended self.old) }
        ensures text { OnOk result (Appends (K.written sink.old) (K.written sink.new) (display_of self.old.calculator ++ 10 ∷ [])) }
        ensures cut { IfErr result (λ end. CutsLine end self.old (K.written sink.old) (K.written sink.new)) }
        ensures cause { IfErr result (λ _. Rose (K.faults sink.old) (K.faults sink.new)) }
        ensures faults { K.faults sink.old ≤ K.faults sink.new }
    {
        let mut text = show(&self.calculator);
        text.push('\n');
        if write_whole(sink, text.as_str().as_bytes()).is_err() {
            return Err(SessionEnd::WriteFault);
        }
        self.line += 1;
        self.begun = false;
        self.first = false;
        Ok(())
    }

    /// The next byte is read.
    pub fn take<K: Sink>(&mut self, byte: u8, sink: &mut K) -> Result<(), SessionEnd>
        requires word { length self.old.word < 8 }
        requires line { self.old.line < 2 ^ 32 - 1 }
        ensures goes { OnOk result (Goes byte self.old self.new (K.written sink.old) (K.written sink.new)) }
        ensures word { OnOk result (length self.new.word < 8) }
        ensures line { OnOk result (self.new.line ≤ self.old.line + 1) }
        ensures halts { IfErr result (λ end. Halts byte end self.old (K.written sink.old) (K.written sink.new)) }
        ensures cause { result ≡ Err SessionEnd.WriteFault → Rose (K.faults sink.old) (K.faults sink.new) }
        ensures faults { K.faults sink.old ≤ K.faults sink.new }
    {
        if !is_separator(byte) {
            return self.add_letter(byte);
        }
        self.end_word()?;
        if byte == b'\n' {
            return self.end_line(sink);
        }
        self.begun = true;
        Ok(())
    }

    /// The file has ended.
    pub fn finish<K: Sink>(mut self, sink: &mut K) -> SessionEnd
        requires word { length self.word < 8 }
        requires line { self.line < 2 ^ 32 - 1 }
        ensures finishes { Finishes result self (K.written sink.old) (K.written sink.new) }
        ensures cause { result ≡ SessionEnd.WriteFault → Rose (K.faults sink.old) (K.faults sink.new) }
        ensures faults { K.faults sink.old ≤ K.faults sink.new }
    {
        if let Err(end) = self.end_word() {
            return end;
        }
        if self.begun {
            if let Err(end) = self.end_line(sink) {
                return end;
            }
        }
        SessionEnd::Done
    }
}
