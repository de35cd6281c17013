//! The reading of lines.
ghost use Rattle.std.specs.Prelude.{◌≡◌, ◌+◌, ◌≤◌, [], false, Err, IfOk, OnOk, OnErr};
ghost use Rattle.hp_io.specs.Causes.{CallsAtMost, Rose};
ghost use Rattle.hp_io.specs.Limited.{Takes, TakesAtMost};
ghost use Rattle.jd_lines.specs.SourceLines.{Advances, IsAdded, IsHeldTaken, IsRefilled, IsSkipped, new_lines, reads_left};

use crate::stops::LineStop;
use hp_io::Source;
use memchr::memchr;
use std::alloc::Global;
use std::marker::Model;

/// How many bytes are asked for at once.
const PIECE: usize = 8192;

/// The line that was taken last, and what was read beyond it. Each call is to be given the same source.
#[derive(Drop)]
pub struct SourceLines {
    line: Vec<u8>,
    piece: Vec<u8>,
    at: usize,
    within: u64,
    ended: bool,
}

impl Model for SourceLines {
    ghost use Rattle.std.specs.Prelude.{◌≡◌, ◌≤◌, true, drop, length};
    ghost use Rattle.jd_lines.specs.SourceLines.{LineState};

    ghost Value = { LineState };

    ghost view = { λ l. record {
      line = l.line.items;
      held = drop l.at l.piece.items;
      within = l.within;
      ended = l.ended;
    } };

    ghost invariant = { λ l. (l.at ≤ length l.piece.items) × (l.ended ≡ true → l.at ≡ length l.piece.items) };
}

/// How many bytes to ask for, where so many are still within the limit: one more, so that a byte past
/// the limit shows, but no more than a piece.
fn asked(within: u64) -> usize
    ensures some { 1 ≤ result }
    ensures past { result ≤ within + 1 }
{
    if within < PIECE as u64 {
        within as usize + 1
    } else {
        PIECE
    }
}

/// Adds bytes to a line, up to the first line feed, and answers where that is.
fn add_up_to_feed(line: &mut Vec<u8>, bytes: &[u8]) -> Result<Option<usize>, LineStop>
    ensures added { IfOk result (λ fed. IsAdded line.old.items bytes.now line.new.items fed) }
    ensures no_memory { OnErr result (result ≡ Err LineStop.NoMemory) }
{
    let fed = memchr(b'\n', bytes);
    let count = fed.unwrap_or(bytes.len());
    match line.extend_from_slice(&bytes[..count]) {
        Ok(()) => Ok(fed),
        Err(_) => Err(LineStop::NoMemory),
    }
}

impl SourceLines {
    /// No line yet of a source that may give so many bytes. Takes no memory.
    pub fn new(alloc: Global, limit: u64) -> SourceLines
        ensures { result ≡ new_lines limit }
    {
        SourceLines {
            line: Vec::new(alloc),
            piece: Vec::new(alloc),
            at: 0,
            within: limit,
            ended: false,
        }
    }

    /// The line that was taken last, its line feed left out.
    pub fn line(&self) -> &[u8]
        ensures { result.now ≡ self.now.line }
    {
        self.line.as_slice()
    }

    /// Moves what is held to the line, up to a line feed, and answers whether there is one.
    fn take_held(&mut self) -> Result<bool, LineStop>
        requires { self.old.ended ≡ false }
        ensures taken { IfOk result (λ fed. IsHeldTaken self.old self.new fed) }
        ensures no_memory { OnErr result (result ≡ Err LineStop.NoMemory) }
    {
        match add_up_to_feed(&mut self.line, &self.piece[self.at..]) {
            Ok(Some(count)) => {
                self.at += count + 1;
                Ok(true)
            }
            Ok(None) => {
                self.at = self.piece.len();
                Ok(false)
            }
            Err(stop) => Err(stop),
        }
    }

    /// Reads a piece of the source in place of what is held, and answers whether it has a byte.
    fn refill<S: Source>(&mut self, source: &mut S) -> Result<bool, LineStop>
        requires { self.old.ended ≡ false }
        ensures refilled { IfOk result (λ some. IsRefilled self.old self.new (S.left source.old)
            (S.left source.new) some) }
        ensures too_long { result ≡ Err LineStop.TooLong
            → Takes (self.old.within + 1) (S.left source.old) (S.left source.new) }
        ensures stopped { OnErr result
            (TakesAtMost (self.old.within + 1) (S.left source.old) (S.left source.new)) }
        ensures failed { result ≡ Err LineStop.Failed
            → Rose (S.faults source.old) (S.faults source.new) }
        ensures faults { S.faults source.old ≤ S.faults source.new }
        ensures calls { CallsAtMost 1 (S.calls source.old) (S.calls source.new) }
    {
        self.piece.clear();
        self.at = 0;
        if self.piece.resize(asked(self.within), 0).is_err() {
            return Err(LineStop::NoMemory);
        }
        let n = source.read(self.piece.as_mut_slice())?;
        if n as u64 > self.within {
            return Err(LineStop::TooLong);
        }
        self.piece.truncate(n);
        self.within -= n as u64;
        self.ended = n == 0;
        Ok(n > 0)
    }

    /// Takes the next line of the source, or answers false where none is left. A text's last line may
    /// have no line feed. What is left after an `Err` isn't said.
    pub fn advance<S: Source>(&mut self, source: &mut S) -> Result<bool, LineStop>
        ensures advances { IfOk result (λ some. Advances self.old self.new (S.left source.old)
            (S.left source.new) some) }
        ensures too_long { result ≡ Err LineStop.TooLong
            → Takes (self.old.within + 1) (S.left source.old) (S.left source.new) }
        ensures stopped { OnErr result
            (TakesAtMost (self.old.within + 1) (S.left source.old) (S.left source.new)) }
        ensures failed { result ≡ Err LineStop.Failed
            → Rose (S.faults source.old) (S.faults source.new) }
        ensures faults { S.faults source.old ≤ S.faults source.new }
        ensures calls { CallsAtMost (reads_left self.old) (S.calls source.old) (S.calls source.new) }
        ensures reads { OnOk result (S.calls source.new + reads_left self.new
            ≤ S.calls source.old + reads_left self.old) }
    {
        self.line.clear();
        if self.ended {
            return Ok(false);
        }
        loop {
            if self.take_held()? {
                return Ok(true);
            }
            let some = match self.refill(source) {
                Ok(some) => some,
                Err(stop) => return Err(stop),
            };
            if !some {
                return Ok(!self.line.is_empty());
            }
        }
    }

    /// Reads what is left of the source to its end, and keeps nothing of it. What is left after an
    /// `Err` isn't said.
    pub fn skip<S: Source>(&mut self, source: &mut S) -> Result<(), LineStop>
        ensures skipped { OnOk result (IsSkipped self.old self.new (S.left source.old)
            (S.left source.new)) }
        ensures too_long { result ≡ Err LineStop.TooLong
            → Takes (self.old.within + 1) (S.left source.old) (S.left source.new) }
        ensures stopped { OnErr result
            (TakesAtMost (self.old.within + 1) (S.left source.old) (S.left source.new)) }
        ensures failed { result ≡ Err LineStop.Failed
            → Rose (S.faults source.old) (S.faults source.new) }
        ensures faults { S.faults source.old ≤ S.faults source.new }
        ensures calls { CallsAtMost (reads_left self.old) (S.calls source.old) (S.calls source.new) }
    {
        if self.ended {
            return Ok(());
        }
        loop {
            match self.refill(source) {
                Ok(some) => {
                    if !some {
                        return Ok(());
                    }
                }
                Err(stop) => return Err(stop),
            }
        }
    }
}
