//! Scripts worked on over a sink in memory, all of whose writes go through or one of which fails.
use crate::cases::Case;
use anyhow::{Result, ensure};
use hp_debug::{Debugged, debug};
use hp_io::{MemSink, NoMemory};
use std::alloc::{AllocError, Global};

/// The bytes that there is room for in a sink.
const ROOM: usize = 8_192;

/// How many of a script's writes are made to fail, one at a time.
const FAILING_WRITES: usize = 3;

/// How a script came out, and what was written for it.
#[derive(Drop)]
pub struct Tried {
    pub debugged: std::result::Result<Debugged, NoMemory>,
    pub written: Vec<u8>,
}

/// Works on a script. The write with the number `failing`, counted from 1, fails.
pub fn try_script(alloc: Global, script: &[u8], failing: u64) -> Result<Tried> {
    ensure!(script.len() <= 1_000_000, "a script is too long");
    let room = vec![in alloc; 0u8; ROOM]?;
    let mut sink = MemSink::new(room, vec![in alloc; failing]?);
    let debugged = debug(alloc, script, &mut sink);
    let mut written = Vec::new(alloc);
    written.extend_from_slice(sink.written())?;
    Ok(Tried { debugged, written })
}

/// The first lines of those that are to be written.
fn first_lines(
    alloc: Global,
    case: &Case,
    count: usize,
) -> std::result::Result<Vec<u8>, AllocError> {
    let mut text = Vec::new(alloc);
    for line in case.output.iter().take(count) {
        text.extend_from_slice(line.as_bytes())?;
        text.push(b'\n')?;
    }
    Ok(text)
}

/// Whether a script comes out as its case says where every write goes through.
pub fn is_as_expected(alloc: Global, case: &Case) -> Result<bool> {
    let tried = try_script(alloc, case.script.as_slice(), 0)?;
    match case.bad_line {
        Some(number) => {
            Ok(tried.debugged == Ok(Debugged::BadLine(number)) && tried.written.is_empty())
        }
        None => {
            let text = first_lines(alloc, case, case.output.len())?;
            Ok(tried.debugged == Ok(Debugged::Done) && tried.written == text)
        }
    }
}

/// Whether each of the first writes, where it fails, ends the work on a script with the lines before it.
pub fn is_cut_short(alloc: Global, case: &Case) -> Result<bool> {
    let mut good = true;
    for count in 0..case.output.len().min(FAILING_WRITES) {
        let tried = try_script(
            alloc,
            case.script.as_slice(),
            (count as u64).saturating_add(1),
        )?;
        let text = first_lines(alloc, case, count)?;
        good &= tried.debugged == Ok(Debugged::WriteFault) && tried.written == text;
    }
    Ok(good)
}
