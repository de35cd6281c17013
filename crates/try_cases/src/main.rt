//! Runs commands on inputs whose outputs another program told, and prints how many give those outputs.
#![tactic(auto)]

use hp_io::{MemSink, MemSource};
use hp16c_commands::{Status, hp16c};
use jd_circuit::Gate;
use jd_rules::{Rule, RuleSet, constant_and, constant_xor};
use std::alloc::{AllocError, Global};
use std::{fs, io};

// What a command reads, and what it is to write.
#[derive(Drop)]
struct Case {
    title: String,
    input: Vec<u8>,
    output: Vec<u8>,
}

fn new_case(alloc: Global, title: &str) -> Result<Case, AllocError> {
    Ok(Case {
        title: String::from_str(alloc, title)?,
        input: Vec::new(alloc),
        output: Vec::new(alloc),
    })
}

fn push_line(bytes: &mut Vec<u8>, line: &str) -> Result<(), AllocError> {
    bytes.extend_from_slice(line.as_bytes())?;
    bytes.push(b'\n')?;
    Ok(())
}

// Takes a line of a case: one of the input, one of the output after `=> `, or one of each with ` => `
// between.
fn take_line(case: &mut Case, line: &str) -> Result<(), AllocError> {
    if let Some((input, output)) = line.split_once(" => ") {
        push_line(&mut case.input, input)?;
        push_line(&mut case.output, output)
    } else if let Some(output) = line.strip_prefix("=> ") {
        push_line(&mut case.output, output)
    } else if line.is_empty() {
        Ok(())
    } else {
        push_line(&mut case.input, line)
    }
}

// The cases of a file, each a title and its lines.
fn read_cases(alloc: Global, text: &str) -> Result<Vec<Case>, AllocError> {
    let mut cases: Vec<Case> = Vec::new(alloc);
    for line in text.lines() {
        if line.starts_with("case ") {
            cases.push(new_case(alloc, line)?)?;
        } else if let Some(case) = cases.last_mut() {
            take_line(case, line)?;
        }
    }
    Ok(cases)
}

// The status with which an output is written.
fn status_told(output: &[u8]) -> Status {
    if output.starts_with(b"bad line ") {
        Status::BadInput
    } else if output.ends_with(b"differ\n") {
        Status::Different
    } else {
        Status::Done
    }
}

// Whether a command writes what it is to write.
fn is_as_expected(
    alloc: Global,
    command: &str,
    input: Vec<u8>,
    output: &[u8],
    rules: &RuleSet,
) -> Result<bool, AllocError> {
    let words = vec![in alloc; String::from_str(alloc, command)?]?;
    let room = vec![in alloc; 0u8; output.len().saturating_add(1)]?;
    let mut source = MemSource::new(input, Vec::new(alloc));
    let mut sink = MemSink::new(room, Vec::new(alloc));
    let outcome = hp16c(alloc, words.as_slice(), &mut source, &mut sink, rules);
    Ok(outcome.status == status_told(output) && sink.written() == output)
}

fn run_file(rt: &HostRuntime, command: &str, path: &str, rules: &RuleSet) -> io::Result<()> {
    let text = fs::read_to_string(rt, path)?;
    let cases = read_cases(rt.alloc(), text.as_str())?;
    let count = cases.len();
    let mut good: u64 = 0;
    for case in cases {
        let Case {
            title,
            input,
            output,
        } = case;
        if is_as_expected(rt.alloc(), command, input, output.as_slice(), rules)? {
            good = good.saturating_add(1);
        } else {
            println!(rt; "{path}: {title}: not as expected")?;
        }
    }
    println!(rt; "{path}: {good} of {count} as expected")
}

fn main(rt: HostRuntime) -> io::Result<()> {
    let alloc = rt.alloc();
    let mut rules: Vec<Rule> = Vec::new(alloc);
    rules.push(Rule::new(Box::new(alloc, |gate: Gate| constant_and(gate))?))?;
    rules.push(Rule::new(Box::new(alloc, |gate: Gate| constant_xor(gate))?))?;
    let rules = RuleSet::new(rules);
    run_file(&rt, "keys", "operations.txt", &rules)?;
    run_file(&rt, "keys", "programs.txt", &rules)?;
    run_file(&rt, "keys", "corners.txt", &rules)?;
    run_file(&rt, "keys", "large.txt", &rules)?;
    run_file(&rt, "keys", "teaching.txt", &rules)?;
    run_file(&rt, "replay", "replays.txt", &rules)
}
