//! Registers read at another word size, or reached by the index register, from starts that are
//! worked. The stop and X are printed where both machines agree; two more runs answer a free
//! start's questions as told.
use crate::comparisons::number;
use crate::failures::Failure;
use crate::literals::do_line;
use crate::runs::{problem_of_text, run_both};
use hp_core::Stop;
use jd_circuit::{Circuit, NoRules};
use jd_symbolic::SymMachine;
use std::alloc::Global;
use std::io;

/// A run: what it shows, the lines of its problem that are its own, and its routine.
struct Row {
    shows: &'static str,
    word: u8,
    start: &'static str,
    lines: &'static str,
}

/// Registers are filled, and read at another word size.
const ROWS: [Row; 8] = [
    Row {
        shows: "a write at 6 bits clears the upper bits of its second nibble",
        word: 8,
        start: "fix X FF\nfix Y 2A\nfix Z 0\nfix T 0\nfix I 0\n",
        lines: "STO 0\n6\nWSIZE\nRDN\nSTO 0\n8\nWSIZE\nCLX\nRCL 0\n",
    },
    Row {
        shows: "words of 8 bits in registers of 16",
        word: 16,
        start: "fix X 1234\nfix Y 0\nfix Z 0\nfix T 0\nfix I 0\n",
        lines: "STO 0\n8\nWSIZE\nCLX\nRCL 1\n",
    },
    Row {
        shows: "words of 4 bits in registers of 16",
        word: 16,
        start: "fix X 1234\nfix Y 0\nfix Z 0\nfix T 0\nfix I 0\n",
        lines: "STO 0\n4\nWSIZE\nCLX\nRCL 2\n",
    },
    Row {
        shows: "a word of 64 bits in four registers of 16",
        word: 16,
        start: "fix X 1234\nfix Y 5678\nfix Z 9ABC\nfix T DEF0\nfix I 0\n",
        lines: "STO 0\nRDN\nSTO 1\nRDN\nSTO 2\nRDN\nSTO 3\n4\n0\nWSIZE\nCLX\nRCL 0\n",
    },
    Row {
        shows: "register 18 by the index register at 4 bits",
        word: 4,
        start: "fix X 5\nfix Y 0\nfix Z 0\nfix T 0\nfix I 12\n",
        lines: "STO (i)\nCLX\nRCL .2\n",
    },
    Row {
        shows: "register 2 is as it was",
        word: 4,
        start: "fix X 5\nfix Y 0\nfix Z 0\nfix T 0\nfix I 12\n",
        lines: "STO (i)\nCLX\nRCL 2\n",
    },
    Row {
        shows: "the index register at 2 to the 32 and 2",
        word: 16,
        start: "fix X 5\nfix Y 0\nfix Z 0\nfix T 0\nfix I 100000002\n",
        lines: "STO (i)\n",
    },
    Row {
        shows: "the index register at 2",
        word: 16,
        start: "fix X 5\nfix Y 0\nfix Z 0\nfix T 0\nfix I 2\n",
        lines: "STO (i)\nCLX\nRCL 2\n",
    },
];

/// The stop and X of a row, where both machines do it alike.
fn outcome(alloc: Global, row: &Row) -> Result<Option<(Stop, Option<u64>)>, Failure> {
    let Row {
        shows: _,
        word,
        start,
        lines,
    } = row;
    let text = format!(in alloc;
        "problem 2\nword {word}\nmode 0\nbase 16\nmemory 203\nsteps 1\npaths 1\nbudget 1\nobserve\n{start}fix L 0\nfix F0 0\nfix F1 0\nfix F2 0\nfix F3 0\nfix C 0\nfix G 0\nfix M 0\nfirst\n{lines}second\nend\n"
    )?;
    let problem = problem_of_text(text.as_str())?;
    let ran = run_both(alloc, &problem)?;
    if ran.difference.is_some() {
        return Ok(None);
    }
    Ok(Some((ran.stop, number(&ran.machine.content.x))))
}

/// Prints a row's stop and X.
fn print_row(rt: &impl Print, alloc: Global, row: &Row) -> io::Result<()> {
    let shows = row.shows;
    match outcome(alloc, row) {
        Ok(Some((stop, Some(x)))) => println!(rt; "{shows}: {stop:?} X {x:x}"),
        Ok(_) => println!(rt; "{shows}: not as stepped"),
        Err(failure) => println!(rt; "{shows}: {failure:?}"),
    }
}

/// How RCL (i) stops where the index register is told not to be at or above the count of registers,
/// and then to have these bits.
fn stop_of_told(alloc: Global, told: &[bool]) -> Result<Stop, Failure> {
    let problem = problem_of_text(
        "problem 2\nword 16\nmode 0\nbase 16\nmemory 203\nsteps 1\npaths 1\nbudget 1\nobserve\nfirst\nRCL (i)\nsecond\nend\n",
    )?;
    let mut c = Circuit::new(alloc, &NoRules, problem.free_bits())?;
    let mut machine = SymMachine::begin(alloc, &mut c, &problem, false)?;
    do_line(&mut machine, &mut c, told)
}

/// Prints how told answers stop.
fn print_told(rt: &impl Print, alloc: Global, shows: &str, told: &[bool]) -> io::Result<()> {
    match stop_of_told(alloc, told) {
        Ok(stop) => println!(rt; "{shows}: {stop:?}"),
        Err(failure) => println!(rt; "{shows}: {failure:?}"),
    }
}

/// Prints the rows.
pub fn print(rt: &impl Print, alloc: Global) -> io::Result<()> {
    for row in &ROWS {
        print_row(rt, alloc, row)?;
    }
    let mut told = [true; 12];
    told[0] = false;
    print_told(rt, alloc, "index bits of 511 after no", &told)?;
    let mut told = [false; 12];
    told[1] = true;
    print_told(rt, alloc, "index bits of 1 after no", &told)
}
