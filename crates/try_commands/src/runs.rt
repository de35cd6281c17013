//! A row's command done by the top call, with no rules, over streams of either pace or without an
//! end. What comes of it is compared with the row, here and in `faults` and `main`.
use crate::kept::kept_text;
use crate::rows::Row;
use crate::streams::{EndlessSource, SlowSink, SlowSource};
use hp_io::{MemSink, MemSource, Sink, Source, next_byte};
use hp16c_commands::{Kept, Outcome, hp16c};
use jd_rules::RuleSet;
use std::alloc::{AllocError, Global};

/// More bytes than a start is long.
const START_ROOM: usize = 4096;

/// How many bytes the streams of a run move at a call.
#[derive(Clone, Copy, Debug, PartialEq, Eq)]
pub enum Pace {
    /// All that there is room for.
    AllAtOnce,
    /// One.
    ByteByByte,
}

/// The calls of a run's streams that fail. No call has the number 0.
#[derive(Clone, Copy, Debug, PartialEq, Eq)]
pub struct Failing {
    pub read: u64,
    pub write: u64,
}

impl Failing {
    /// A read alone.
    pub fn read(number: u64) -> Failing {
        Failing {
            read: number,
            write: 0,
        }
    }

    /// A write alone.
    pub fn write(number: u64) -> Failing {
        Failing {
            read: 0,
            write: number,
        }
    }
}

/// How a run ended.
#[derive(Drop)]
pub struct Ended {
    pub status: u8,
    pub keeps: bool,
    pub kept: String,
    pub output: Vec<u8>,
}

impl Ended {
    /// Whether the output is that of a row, or begins as the row says.
    fn writes(&self, row: &Row) -> bool {
        if row.begins {
            self.output.as_slice().starts_with(row.output.as_slice())
        } else {
            self.output.as_slice() == row.output.as_slice()
        }
    }

    /// Whether what is kept is what a row says, where it says so.
    fn keeps_as_due(&self, row: &Row) -> bool {
        match &row.kept {
            Some(kept) => kept.as_str() == self.kept.as_str(),
            None => true,
        }
    }

    /// Whether the status, the output and what is kept are those of a row.
    pub fn is_as_due(&self, row: &Row) -> bool {
        self.status == row.status && self.writes(row) && self.keeps_as_due(row)
    }
}

/// What a command gave, and what its sink took.
fn end_of(alloc: Global, outcome: Outcome, written: &[u8]) -> Result<Ended, AllocError> {
    Ok(Ended {
        status: outcome.status.number(),
        keeps: !matches!(outcome.kept, Kept::Nothing),
        kept: kept_text(alloc, &outcome.kept)?,
        output: Vec::from_slice(alloc, written)?,
    })
}

/// Room for what a row's command writes, and a byte more; for an output whose beginning alone is said, as
/// much as a start is long.
fn room(alloc: Global, row: &Row) -> Result<Vec<u8>, AllocError> {
    let more = if row.begins { START_ROOM } else { 1 };
    Ok(vec![in alloc; 0u8; row.output.len().saturating_add(more)]?)
}

/// Does a row's command over these streams, with no rules.
fn command<S: Source, K: Sink>(alloc: Global, row: &Row, source: &mut S, sink: &mut K) -> Outcome {
    let rules = RuleSet::new(Vec::new(alloc));
    hp16c(alloc, row.words.as_slice(), source, sink, &rules)
}

/// Does a row's command over its input.
pub fn run(alloc: Global, row: &Row, pace: Pace, failing: Failing) -> Result<Ended, AllocError> {
    let input = row.input.clone()?;
    match pace {
        Pace::AllAtOnce => {
            let mut source = MemSource::new(input, vec![in alloc; failing.read]?);
            let mut sink = MemSink::new(room(alloc, row)?, vec![in alloc; failing.write]?);
            let outcome = command(alloc, row, &mut source, &mut sink);
            end_of(alloc, outcome, sink.written())
        }
        Pace::ByteByByte => {
            let mut source = SlowSource::new(input, failing.read);
            let mut sink = SlowSink::new(Vec::new(alloc), failing.write);
            let outcome = command(alloc, row, &mut source, &mut sink);
            end_of(alloc, outcome, sink.written())
        }
    }
}

/// Does a row's command over the source without an end.
fn run_endless(alloc: Global, row: &Row) -> Result<Ended, AllocError> {
    let mut source = EndlessSource::new();
    let mut sink = MemSink::new(room(alloc, row)?, Vec::new(alloc));
    let outcome = command(alloc, row, &mut source, &mut sink);
    end_of(alloc, outcome, sink.written())
}

/// Does a row's command, and answers whether it ends, writes and leaves what the row says.
pub fn is_as_expected(alloc: Global, row: &Row) -> Result<bool, AllocError> {
    if row.endless {
        return Ok(run_endless(alloc, row)?.is_as_due(row));
    }
    let mut source = MemSource::new(row.input.clone()?, vec![in alloc; row.failing_read]?);
    let mut sink = MemSink::new(room(alloc, row)?, vec![in alloc; row.failing_write]?);
    let outcome = command(alloc, row, &mut source, &mut sink);
    let ended = end_of(alloc, outcome, sink.written())?;
    let next = next_byte(&mut source).unwrap_or(None);
    Ok(ended.is_as_due(row) && next == row.next)
}
