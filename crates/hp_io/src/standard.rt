//! A reader of std as a source, and a writer as a sink. They tell nothing of the bytes.
ghost use Rattle.std.specs.Prelude.{◌≡◌, ◌<◌, length, None, IfOk, IsErr, MatchResult};
ghost use Rattle.std.specs.Io.{ReadsAtMost, WritesAtMost};
ghost use Rattle.std.specs.Io.KnownBytes.{ReadConsumes, WriteAppends};
ghost use Rattle.hp_io.specs.Causes.{CallsAtMost, HasCause, counted, faults_after};

use crate::failures::{Failed, fail};
use crate::sinks::Sink;
use crate::sources::Source;
use std::io;
use std::io::{Read, Write};
use std::marker::Model;

// What std answered, with a failure counted and its cause forgotten.
fn count_failure(faults: &mut u64, outcome: io::Result<usize>) -> Result<usize, Failed>
    ensures answer { MatchResult outcome (λ n. result ≡ Ok n) (λ _. IsErr result) }
    ensures count { faults.new ≡ faults_after faults.old result }
    ensures cause { HasCause faults.old faults.new result }
{
    match outcome {
        Ok(n) => Ok(n),
        Err(_) => fail(faults),
    }
}

/// A reader, with the number of its reads and of those that failed. Any error is a failure.
#[derive(Drop)]
pub struct StdSource<R: Read> {
    reader: R,
    calls: u64,
    faults: u64,
}

impl<R: Read> Model for StdSource<R> {
    ghost use Rattle.hp_io.specs.Causes.{Counts};

    ghost Value = { Counts };

    ghost view = { λ s. record { calls = s.calls; faults = s.faults } };
}

impl<R: Read> StdSource<R> {
    /// A source of what a reader gives. Takes no memory.
    pub fn new(reader: R) -> StdSource<R>
        ensures no_calls { result ≡ record { calls = 0; faults = 0 } }
    {
        StdSource {
            reader,
            calls: 0,
            faults: 0,
        }
    }
}

impl<R: Read> Source for StdSource<R> {
    ghost left = { λ _. None };

    ghost faults = { λ s. s.faults };

    ghost calls = { λ s. s.calls };

    fn read(&mut self, into: &mut [u8]) -> Result<usize, Failed>
        ensures bound { ReadsAtMost result into.new }
        ensures bytes { ReadConsumes None None result into.new }
        ensures cause { HasCause self.old.faults self.new.faults result }
        ensures calls { CallsAtMost 1 self.old.calls self.new.calls }
        ensures counted_calls { self.new.calls ≡ counted self.old.calls }
        ensures counted_faults { self.new.faults ≡ faults_after self.old.faults result }
    {
        self.calls = self.calls.saturating_add(1);
        let outcome = self.reader.read(into);
        count_failure(&mut self.faults, outcome)
    }
}

/// A writer, with the number of its writes that failed. Any error is a failure, and so is a write
/// that takes nothing of a piece that isn't empty.
#[derive(Drop)]
pub struct StdSink<W: Write> {
    writer: W,
    faults: u64,
}

impl<W: Write> Model for StdSink<W> {
    ghost use Rattle.std.specs.Prelude.{ℕ};

    // The number of failed writes.
    ghost Value = { ℕ };

    ghost view = { λ s. s.faults };
}

impl<W: Write> StdSink<W> {
    /// A sink that gives a writer its bytes. Takes no memory, and flushes nothing.
    pub fn new(writer: W) -> StdSink<W>
        ensures no_faults { result ≡ 0 }
    {
        StdSink { writer, faults: 0 }
    }
}

impl<W: Write> Sink for StdSink<W> {
    ghost written = { λ _. None };

    ghost faults = { λ s. s };

    fn write(&mut self, bytes: &[u8]) -> Result<usize, Failed>
        ensures bound { WritesAtMost result bytes.now }
        ensures progress { IfOk result (λ n. 0 < length bytes.now → 0 < n) }
        ensures bytes { WriteAppends None None result bytes.now }
        ensures cause { HasCause self.old self.new result }
        ensures counted_faults { self.new ≡ faults_after self.old result }
    {
        match self.writer.write(bytes) {
            Ok(0) if !bytes.is_empty() => fail(&mut self.faults),
            outcome => count_failure(&mut self.faults, outcome),
        }
    }
}
