//! Does commands over streams, some of which fail at a call or have no end, and prints how many ended,
//! wrote and read as their rows say, and how many calls of each run of `faults.txt` were let fail. With
//! rows on standard input it does their commands alone, and prints how each ended.
#![tactic(auto)]

mod faults;
mod kept;
mod memory;
mod rows;
mod runs;
mod streams;

use crate::faults::{Tried, fail_reads, fail_writes};
use crate::memory::run_after;
use crate::rows::{Row, read_rows};
use crate::runs::{Pace, is_as_expected};
use std::io::Read;
use std::{fs, io};

/// Does the commands of a file's rows.
fn run_file(rt: &HostRuntime, path: &str) -> io::Result<()> {
    let text = fs::read_to_string(rt, path)?;
    let rows = read_rows(rt.alloc(), text.as_str())?;
    let count = rows.len();
    let mut good: u64 = 0;
    for row in rows {
        if is_as_expected(rt.alloc(), &row)? {
            good = good.saturating_add(1);
        } else {
            let title = row.title.as_str();
            println!(rt; "{path}: {title}: not as expected")?;
        }
    }
    println!(rt; "{path}: {good} of {count} as expected")
}

/// Says what came of letting a row's reads or writes fail.
fn print_tried(rt: &HostRuntime, title: &str, calls: &str, tried: &Tried) -> io::Result<()> {
    match tried {
        Tried::AsDue(count) => println!(rt; "{title}: {count} {calls} that fail"),
        Tried::Wrong { call, ended } => {
            let text = String::from_utf8_lossy(rt.alloc(), ended.output.as_slice())?;
            let status = ended.status;
            println!(rt;
                "{title}: {calls}: the one with number {call} gives status {status} and\n{text}"
            )
        }
    }
}

/// Lets each read and each write of a row's command fail, at either pace.
fn try_faults(rt: &HostRuntime, row: &Row) -> io::Result<()> {
    let alloc = rt.alloc();
    let title = row.title.as_str();
    let tried = fail_reads(alloc, row, Pace::AllAtOnce)?;
    print_tried(rt, title, "reads", &tried)?;
    let tried = fail_writes(alloc, row, Pace::AllAtOnce)?;
    print_tried(rt, title, "writes", &tried)?;
    let tried = fail_reads(alloc, row, Pace::ByteByByte)?;
    print_tried(rt, title, "reads of a byte", &tried)?;
    let tried = fail_writes(alloc, row, Pace::ByteByByte)?;
    print_tried(rt, title, "writes of a byte", &tried)
}

fn try_faults_of_file(rt: &HostRuntime, path: &str) -> io::Result<()> {
    let text = fs::read_to_string(rt, path)?;
    for row in read_rows(rt.alloc(), text.as_str())? {
        try_faults(rt, &row)?;
    }
    Ok(())
}

/// Does the commands of a text's rows, and prints how each ended.
fn print_ends(rt: &HostRuntime, text: &str) -> io::Result<()> {
    for row in read_rows(rt.alloc(), text)? {
        let (ended, before) = run_after(rt.alloc(), &row)?;
        let verdict = if ended.is_as_due(&row) {
            "as due"
        } else {
            "not as due"
        };
        let title = row.title.as_str();
        let count = ended.output.len();
        let status = ended.status;
        println!(rt;
            "{title}: status {status}, {count} bytes, {verdict}, after {before} allocations"
        )?;
    }
    Ok(())
}

fn main(rt: HostRuntime) -> io::Result<()> {
    let mut text = String::new(rt.alloc());
    rt.stdin().read_to_string(&mut text)?;
    if !text.is_empty() {
        return print_ends(&rt, text.as_str());
    }
    run_file(&rt, "rows.txt")?;
    run_file(&rt, "problems.txt")?;
    try_faults_of_file(&rt, "faults.txt")
}
