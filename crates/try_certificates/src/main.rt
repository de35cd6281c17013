//! Reads each of many certificates, which a byte 1 parts, line by line and whole, and writes it back.
#![tactic(auto)]

use anyhow::{Result, ensure};
use hp_io::MemSink;
use jd_cert::{Cert, CertEvent, CertReader, read_cert, write_cert};
use std::alloc::Global;
use std::io::Read;
use std::str;

/// The byte between two inputs.
const BETWEEN: u8 = 1;

/// How many bytes a certificate that is written may have.
const ROOM: usize = 1000;

/// The letter of an event.
fn letter(event: &CertEvent) -> char {
    match event {
        CertEvent::Nothing => '.',
        CertEvent::Fork => 'F',
        CertEvent::Leaf => 'L',
        CertEvent::Cut => 'C',
        CertEvent::Proof(_) => 'P',
        CertEvent::End => 'E',
    }
}

/// Takes a line, and prints the letter of its event, or the fault.
fn take(rt: &impl Print, reader: &mut CertReader, line: &[u8]) -> Result<bool> {
    ensure!(reader.lines() < 1 << 30, "there are too many lines");
    match reader.take(line) {
        Ok(event) => {
            let letter = letter(&event);
            print!(rt; "{letter}")?;
            Ok(true)
        }
        Err(fault) => {
            print!(rt; " {fault}")?;
            Ok(false)
        }
    }
}

/// Prints the events of a text's lines up to the first fault, which is met once more, and whether they
/// are a whole tree.
fn by_lines(rt: &impl Print, alloc: Global, input: &[u8]) -> Result<()> {
    let mut reader = CertReader::new(alloc);
    for line in input.split(|b| *b == b'\n') {
        if !take(rt, &mut reader, line)? {
            take(rt, &mut reader, b"")?;
            break;
        }
    }
    println!(rt; " {}", if reader.whole() { "whole" } else { "not whole" })?;
    Ok(())
}

/// Prints the canonical text of a certificate.
fn write_back(rt: &impl Print, alloc: Global, cert: &Cert) -> Result<()> {
    let mut room = Vec::new(alloc);
    room.resize(ROOM, 0)?;
    let mut sink = MemSink::new(room, Vec::new(alloc));
    ensure!(write_cert(cert, &mut sink).is_ok(), "a write failed");
    let text = str::from_utf8(sink.written())?;
    print!(rt; "{text}")?;
    Ok(())
}

/// Prints what the whole text is.
fn whole(rt: &impl Print, alloc: Global, input: &[u8]) -> Result<()> {
    ensure!(input.len() < 1 << 28, "an input is too long");
    match read_cert(alloc, input) {
        Ok(cert) => write_back(rt, alloc, &cert)?,
        Err(fault) => println!(rt; "{fault}")?,
    }
    Ok(())
}

fn main(rt: HostRuntime) -> Result<()> {
    let mut bytes = Vec::new(rt.alloc());
    rt.stdin().read_to_end(&mut bytes)?;
    for input in bytes.as_slice().split(|b| *b == BETWEEN) {
        by_lines(&rt, rt.alloc(), input)?;
        whole(&rt, rt.alloc(), input)?;
    }
    Ok(())
}
