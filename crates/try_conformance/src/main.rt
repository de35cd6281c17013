//! Presses the key files of the conformance suite, and prints of each how many displays are as wanted, or
//! the first that isn't. The files' names stand in `names.txt`, and each has its keys and its displays.
#![tactic(auto)]

use hp_io::{MemSink, MemSource};
use hp_session::session;
use std::alloc::{AllocError, Global};
use std::{fs, io};

/// How many bytes more than the wanted displays a session may write before it is cut off.
const FURTHER_ROOM: usize = 1000;

/// The displays of a key file, one a line, as far as there is room.
fn displays_of(alloc: Global, keys: Vec<u8>, wanted: &[u8]) -> Result<Vec<u8>, AllocError> {
    let room = vec![in alloc; 0u8; wanted.len().saturating_add(FURTHER_ROOM)]?;
    let mut source = MemSource::new(keys, Vec::new(alloc));
    let mut sink = MemSink::new(room, Vec::new(alloc));
    session(&mut source, &mut sink);
    let mut written = Vec::new(alloc);
    written.extend_from_slice(sink.written())?;
    Ok(written)
}

/// Prints how many lines are as wanted, or the first that isn't.
fn compare(rt: &HostRuntime, name: &str, wanted: &str, written: &str) -> io::Result<()> {
    let mut shown = written.lines();
    let mut count: u64 = 0;
    for display in wanted.lines() {
        let got = shown.next().unwrap_or("nothing");
        count = count.saturating_add(1);
        if got != display {
            return println!(rt; "{name}: line {count}: wanted {display}, got {got}");
        }
    }
    if shown.next().is_some() {
        return println!(rt; "{name}: more than {count} lines");
    }
    println!(rt; "{name}: {count} lines as wanted")
}

/// Presses the keys of a file of the suite, and compares the displays.
fn run_file(rt: &HostRuntime, name: &str) -> io::Result<()> {
    let alloc = rt.alloc();
    let mut path = String::from_str(alloc, name)?;
    path.push_str(".keys")?;
    let keys = fs::read(rt, path.as_str())?;
    let mut path = String::from_str(alloc, name)?;
    path.push_str(".displays")?;
    let wanted = fs::read_to_string(rt, path.as_str())?;
    let written = displays_of(alloc, keys, wanted.as_str().as_bytes())?;
    let text = String::from_utf8_lossy(alloc, written.as_slice())?;
    compare(rt, name, wanted.as_str(), text.as_str())
}

fn main(rt: HostRuntime) -> io::Result<()> {
    let names = fs::read_to_string(&rt, "names.txt")?;
    for name in names.as_str().lines() {
        run_file(&rt, name)?;
    }
    Ok(())
}
