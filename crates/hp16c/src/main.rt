//! hp16c, a calculator of integers: its commands over the real streams.
#![tactic(auto)]

use hp_io::{StdSink, StdSource};
use hp16c_commands::Status;
pub use hp16c_commands::hp16c;
use jd_circuit::Gate;
use jd_rules::{Rule, RuleSet, alike, constant_and, constant_xor};
use std::io::{BufReader, ErrorKind};
use std::process::ExitCode;
use std::{env, io};

// The number with which the program ends where there is no memory for its words, its rules or its
// buffer.
const NO_MEMORY: u8 = 8;

// The words after the program's name.
fn words(rt: &HostRuntime) -> io::Result<Vec<String>> {
    let words = env::args(rt)?.skip(1).collect(rt.alloc())?;
    Ok(words)
}

// The number with which it ends without its words. Words that are no text are no command.
fn number_without_words(error: &io::Error) -> u8 {
    match error.kind() {
        ErrorKind::OutOfMemory => NO_MEMORY,
        _ => Status::Usage.number(),
    }
}

// Does what the words say. The judge's circuits ask three rules, for conjunctions and for exclusive ors
// with a constant argument, and for gates whose arguments are equal or negations of each other.
fn run(rt: &HostRuntime, words: &[String]) -> io::Result<Status> {
    let alloc = rt.alloc();
    let mut rules: Vec<Rule> = Vec::new(alloc);
    rules.push(Rule::new(Box::new(alloc, |gate: Gate| constant_and(gate))?))?;
    rules.push(Rule::new(Box::new(alloc, |gate: Gate| constant_xor(gate))?))?;
    rules.push(Rule::new(Box::new(alloc, |gate: Gate| alike(gate))?))?;
    let rules = RuleSet::new(rules);
    let mut source = StdSource::new(BufReader::new(alloc, rt.reader())?);
    // A display is one write, so it goes out when its line has been read.
    let mut sink = StdSink::new(rt.stdout());
    Ok(hp16c(alloc, words, &mut source, &mut sink, &rules).status)
}

fn main(rt: HostRuntime) -> ExitCode {
    let words = match words(&rt) {
        Ok(words) => words,
        Err(error) => return ExitCode::from(number_without_words(&error)),
    };
    match run(&rt, words.as_slice()) {
        Ok(status) => ExitCode::from(status.number()),
        Err(_) => ExitCode::from(NO_MEMORY),
    }
}
