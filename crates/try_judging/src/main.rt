//! Judges pairs of routines whose answers another program told, with no rules and with the rules that
//! the program hands in, checks each certificate and replays each start, and prints how many are as
//! told.
#![tactic(auto)]

mod spoilt;

use crate::spoilt::{Spoilt, first_half, without_conflict};
use hp_io::{MemSink, MemSource};
use hp16c_commands::hp16c;
use jd_circuit::Gate;
use jd_rules::{Rule, RuleSet, alike, constant_and, constant_xor};
use std::alloc::{AllocError, Global};
use std::{fs, io};

/// The most bytes that `judge` may write.
const JUDGED_ROOM: usize = 1 << 25;

/// The most bytes that `check` and `replay` may write.
const ROOM: usize = 1 << 16;

/// A problem, and the statuses with which its judgement may end.
#[derive(Drop)]
struct Pair {
    allowed: Vec<u8>,
    problem: Vec<u8>,
}

/// How a command ended, and what it wrote.
#[derive(Drop)]
struct Answer {
    status: u8,
    output: Vec<u8>,
}

/// The pair of a title, which is its number and then the statuses.
fn new_pair(alloc: Global, title: &str) -> Result<Pair, AllocError> {
    let mut allowed = Vec::new(alloc);
    for word in title.split(" ").skip(1) {
        allowed.push(word.parse().unwrap_or(255))?;
    }
    Ok(Pair {
        allowed,
        problem: Vec::new(alloc),
    })
}

/// The pairs of a file, each a title and the problem's lines.
fn read_pairs(alloc: Global, text: &str) -> Result<Vec<Pair>, AllocError> {
    let mut pairs: Vec<Pair> = Vec::new(alloc);
    for line in text.lines() {
        if let Some(title) = line.strip_prefix("pair ") {
            pairs.push(new_pair(alloc, title)?)?;
        } else if let Some(pair) = pairs.last_mut() {
            pair.problem.extend_from_slice(line.as_bytes())?;
            pair.problem.push(b'\n')?;
        }
    }
    Ok(pairs)
}

/// Does a command of one word, which may write so many bytes.
fn run_command(
    alloc: Global,
    word: &str,
    input: Vec<u8>,
    room: usize,
    rules: &RuleSet,
) -> Result<Answer, AllocError> {
    let words = vec![in alloc; String::from_str(alloc, word)?]?;
    let mut source = MemSource::new(input, Vec::new(alloc));
    let mut sink = MemSink::new(vec![in alloc; 0u8; room]?, Vec::new(alloc));
    let outcome = hp16c(alloc, words.as_slice(), &mut source, &mut sink, rules);
    let mut output = Vec::new(alloc);
    output.extend_from_slice(sink.written())?;
    Ok(Answer {
        status: outcome.status.number(),
        output,
    })
}

/// Whether what was judged bears it out: a certificate checks, and from a start the routines differ.
fn is_borne_out(alloc: Global, judged: Answer, rules: &RuleSet) -> Result<bool, AllocError> {
    match judged.status {
        0 => {
            let checked = run_command(alloc, "check", judged.output, ROOM, rules)?;
            Ok(checked.status == 0 && checked.output.as_slice() == b"equal\n".as_slice())
        }
        1 => {
            let replayed = run_command(alloc, "replay", judged.output, ROOM, rules)?;
            Ok(replayed.status == 1 && replayed.output.as_slice().ends_with(b"differ\n"))
        }
        _ => Ok(true),
    }
}

/// Whether `check` writes of a spoilt text what is due, with a status.
fn is_refused(
    alloc: Global,
    spoilt: Spoilt,
    status: u8,
    rules: &RuleSet,
) -> Result<bool, AllocError> {
    let Spoilt { text, due } = spoilt;
    let checked = run_command(alloc, "check", text, ROOM, rules)?;
    Ok(checked.status == status && checked.output == due)
}

/// Whether what was judged of the loop of 104 steps is refused where it is cut off and where a hint is
/// left out. Of other problems nothing is spoilt.
fn is_refused_where_spoilt(
    alloc: Global,
    judged: &Answer,
    rules: &RuleSet,
) -> Result<bool, AllocError> {
    let whole = String::from_utf8_lossy(alloc, judged.output.as_slice())?;
    let Some((problem, certificate)) = whole.as_str().split_once("\nend\n") else {
        return Ok(true);
    };
    if judged.status != 0 || !problem.contains("\nsteps 104\n") {
        return Ok(true);
    }
    let half = first_half(alloc, whole.as_str())?;
    let problem = format!(in alloc; "{problem}\nend\n")?;
    let without = without_conflict(alloc, problem.as_str(), certificate)?;
    Ok(is_refused(alloc, half, 4, rules)? && is_refused(alloc, without, 9, rules)?)
}

/// Whether a pair is judged as allowed, alike with no rules and with these.
fn is_as_told(
    alloc: Global,
    pair: Pair,
    none: &RuleSet,
    rules: &RuleSet,
) -> Result<bool, AllocError> {
    let Pair { allowed, problem } = pair;
    let plain = run_command(alloc, "judge", problem.clone()?, JUDGED_ROOM, none)?;
    let judged = run_command(alloc, "judge", problem, JUDGED_ROOM, rules)?;
    Ok(
        allowed.as_slice().contains(&judged.status)
            && plain.status == judged.status
            && is_refused_where_spoilt(alloc, &judged, rules)?
            && is_borne_out(alloc, plain, none)?
            && is_borne_out(alloc, judged, rules)?,
    )
}

fn run_file(rt: &HostRuntime, path: &str, none: &RuleSet, rules: &RuleSet) -> io::Result<()> {
    let text = fs::read_to_string(rt, path)?;
    let pairs = read_pairs(rt.alloc(), text.as_str())?;
    let count = pairs.len();
    let mut number: u64 = 0;
    let mut good: u64 = 0;
    for pair in pairs {
        number = number.saturating_add(1);
        if is_as_told(rt.alloc(), pair, none, rules)? {
            good = good.saturating_add(1);
        } else {
            println!(rt; "{path}: pair {number}: not as told")?;
        }
    }
    println!(rt; "{path}: {good} of {count} as told by no rules and by three")
}

fn main(rt: HostRuntime) -> io::Result<()> {
    let alloc = rt.alloc();
    let none = RuleSet::new(Vec::new(alloc));
    let mut rules: Vec<Rule> = Vec::new(alloc);
    rules.push(Rule::new(Box::new(alloc, |gate: Gate| constant_and(gate))?))?;
    rules.push(Rule::new(Box::new(alloc, |gate: Gate| constant_xor(gate))?))?;
    rules.push(Rule::new(Box::new(alloc, |gate: Gate| alike(gate))?))?;
    let rules = RuleSet::new(rules);
    run_file(&rt, "pairs.txt", &none, &rules)?;
    run_file(&rt, "rows.txt", &none, &rules)
}
