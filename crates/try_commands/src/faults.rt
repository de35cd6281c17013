//! Whichever call of a run fails, the command is to end with that fault's status, keep nothing and
//! have written no more than is due. Each call fails in turn, until a run is over before it comes.
use crate::rows::Row;
use crate::runs::{Ended, Failing, Pace, run};
use std::alloc::{AllocError, Global};

const READ_FAULT: u8 = 6;

const WRITE_FAULT: u8 = 7;

/// More calls than a run has.
const MOST: u64 = 1_000;

/// What came of letting each call fail in turn.
#[derive(Drop)]
pub enum Tried {
    /// Each was answered as it should be, and so was the run without a failure. This is how many
    /// calls it has.
    AsDue(u64),
    /// The first that wasn't.
    Wrong { call: u64, ended: Ended },
}

/// The number of line feeds of some bytes.
fn count_feeds(bytes: &[u8]) -> u64 {
    bytes.iter().filter(|b| **b == b'\n').count() as u64
}

/// The first lines of a text.
fn first_lines(text: &[u8], count: u64) -> &[u8] {
    let mut left = count;
    for at in 0..text.len() {
        if left == 0 {
            return &text[..at];
        }
        if text[at] == b'\n' {
            left -= 1;
        }
    }
    text
}

/// What was to be written where a read failed: of `keys`, which takes a byte a read, the displays of
/// the lines that ended in the bytes before; of the others nothing.
fn due_at_read(row: &Row, call: u64) -> &[u8] {
    let is_keys = row
        .words
        .first()
        .is_some_and(|word| word.as_str() == "keys");
    if !is_keys || call == 0 || call - 1 > row.input.len() as u64 {
        return &[];
    }
    let taken = &row.input[..(call - 1) as usize];
    first_lines(row.output.as_slice(), count_feeds(taken))
}

fn is_read_fault(row: &Row, call: u64, ended: &Ended) -> bool {
    ended.status == READ_FAULT && !ended.keeps && ended.output.as_slice() == due_at_read(row, call)
}

/// A front of the row's output was written; a byte a write where they go one by one.
fn is_write_fault(row: &Row, pace: Pace, call: u64, ended: &Ended) -> bool {
    let count = ended.output.len() as u64;
    ended.status == WRITE_FAULT
        && !ended.keeps
        && row.output.as_slice().starts_with(ended.output.as_slice())
        && (pace == Pace::AllAtOnce || count.saturating_add(1) == call)
}

/// What came of the first run whose failing call wasn't met, or wasn't answered as it should be.
fn told(row: &Row, call: u64, ended: Ended) -> Tried {
    if ended.is_as_due(row) {
        Tried::AsDue(call.saturating_sub(1))
    } else {
        Tried::Wrong { call, ended }
    }
}

/// Lets each read of a run fail in turn, up to the first run in which none does.
pub fn fail_reads(alloc: Global, row: &Row, pace: Pace) -> Result<Tried, AllocError> {
    for call in 1..MOST {
        let ended = run(alloc, row, pace, Failing::read(call))?;
        if !is_read_fault(row, call, &ended) {
            return Ok(told(row, call, ended));
        }
    }
    Ok(Tried::AsDue(MOST))
}

/// Lets each write of a run fail in turn, up to the first run in which none does.
pub fn fail_writes(alloc: Global, row: &Row, pace: Pace) -> Result<Tried, AllocError> {
    for call in 1..MOST {
        let ended = run(alloc, row, pace, Failing::write(call))?;
        if !is_write_fault(row, pace, call, &ended) {
            return Ok(told(row, call, ended));
        }
    }
    Ok(Tried::AsDue(MOST))
}
