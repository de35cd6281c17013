//! Works on scripts for the debugger whose texts are known from elsewhere, worked by hand in `scripts.txt` and
//! told by another program in `generated.txt`. It tries what no computation of the definitions reaches:
//! histories beyond their depth, late runs, the larger memory, and writes that fail. Prints how many came out
//! as their texts say.
#![tactic(auto)]

mod cases;
mod trials;

use crate::cases::{Case, read_cases};
use crate::trials::{is_as_expected, is_cut_short, try_script};
use anyhow::Result;
use std::fs;

/// Prints how a script came out that isn't as expected.
fn print_case(rt: &HostRuntime, case: &Case) -> Result<()> {
    let tried = try_script(rt.alloc(), case.script.as_slice(), 0)?;
    let text = String::from_utf8_lossy(rt.alloc(), tried.written.as_slice())?;
    let title = case.title.as_str();
    println!(rt; "{title}: not as expected:\n{text}")?;
    Ok(())
}

/// Works on whole scripts.
fn try_whole(rt: &HostRuntime, name: &str, cases: &[Case]) -> Result<()> {
    let count = cases.len();
    let mut good: u64 = 0;
    for case in cases {
        if is_as_expected(rt.alloc(), case)? {
            good = good.saturating_add(1);
        } else {
            print_case(rt, case)?;
        }
    }
    println!(rt; "{name}: {good} of {count} as expected")?;
    Ok(())
}

/// Works on scripts of which a write fails.
fn try_cut(rt: &HostRuntime, name: &str, cases: &[Case]) -> Result<()> {
    let count = cases.len();
    let mut good: u64 = 0;
    for case in cases {
        if is_cut_short(rt.alloc(), case)? {
            good = good.saturating_add(1);
        } else {
            let title = case.title.as_str();
            println!(rt; "{title}: not cut short as expected")?;
        }
    }
    println!(rt; "{name}: {good} of {count} cut short by a write that fails")?;
    Ok(())
}

/// The cases of a file.
fn read_file(rt: &HostRuntime, name: &str) -> Result<Vec<Case>> {
    let text = fs::read_to_string(rt, name)?;
    Ok(read_cases(rt.alloc(), text.as_str())?)
}

fn main(rt: HostRuntime) -> Result<()> {
    let by_hand = read_file(&rt, "scripts.txt")?;
    try_whole(&rt, "scripts.txt", by_hand.as_slice())?;
    try_cut(&rt, "scripts.txt", by_hand.as_slice())?;
    let generated = read_file(&rt, "generated.txt")?;
    try_whole(&rt, "generated.txt", generated.as_slice())
}
