//! Answers each of many inputs of the command `lrat`, which a byte 1 parts: a run of the whole reader
//! and checker beside inputs whose answers come from a checker that was written apart.
#![tactic(auto)]

use anyhow::{Result, ensure};
use jd_lrat::check_text;
use std::alloc::Global;
use std::io::Read;

/// The byte between two inputs.
const BETWEEN: u8 = 1;

/// Prints the verdict on an input.
fn answer(rt: &impl Print, alloc: Global, input: &[u8]) -> Result<()> {
    ensure!(input.len() < 1 << 28, "an input is too long");
    match check_text(alloc, input) {
        Ok(verdict) => println!(rt; "{verdict}")?,
        Err(_) => println!(rt; "no memory")?,
    }
    Ok(())
}

fn main(rt: HostRuntime) -> Result<()> {
    let mut bytes = Vec::new(rt.alloc());
    rt.stdin().read_to_end(&mut bytes)?;
    for input in bytes.as_slice().split(|b| *b == BETWEEN) {
        answer(&rt, rt.alloc(), input)?;
    }
    Ok(())
}
