//! Judges the specs of a list, and prints of each what is answered; of one that isn't met also how the
//! routine ends from the start that was found.
#![tactic(auto)]

use jd_circuit::Gate;
use jd_replay::{replay, seen_text};
use jd_rules::{Rule, RuleSet, alike, constant_and, constant_xor};
use jd_spec::{Judged, Spec, read_spec, specify};
use std::{fs, io};

/// The most bytes that a spec may have.
const LIMIT: usize = 65_536;

fn print_answer(rt: &HostRuntime, name: &str, spec: &Spec, judged: &Judged) -> io::Result<()> {
    match judged {
        Judged::Equal(..) => println!(rt; "{name}: equal"),
        Judged::Unknown(..) => println!(rt; "{name}: unknown"),
        Judged::TooManyPaths(_) => println!(rt; "{name}: paths"),
        Judged::Different(start) => {
            if !spec.problem.allows(start) {
                return println!(rt; "{name}: no allowed start");
            }
            let (seen, _) = replay(&spec.problem, start);
            let text = seen_text(&spec.problem, &seen);
            print!(rt; "{name}: different,{}", text.as_str())
        }
    }
}

fn try_spec(rt: &HostRuntime, name: &str, rules: &RuleSet) -> io::Result<()> {
    let path = format!(in rt.alloc(); "{name}.spec")?;
    let text = fs::read_to_string(rt, path.as_str())?;
    let bytes = text.as_str().as_bytes();
    if bytes.len() > LIMIT {
        return println!(rt; "{name}: limit");
    }
    let spec = match read_spec(bytes) {
        Ok(spec) => spec,
        Err(fault) => return println!(rt; "{name}: bad line {}", fault.line),
    };
    match specify(rt.alloc(), &spec, rules) {
        Ok(judged) => print_answer(rt, name, &spec, &judged),
        Err(_) => println!(rt; "{name}: no memory"),
    }
}

fn main(rt: HostRuntime) -> io::Result<()> {
    let alloc = rt.alloc();
    let mut rules: Vec<Rule> = Vec::new(alloc);
    rules.push(Rule::new(Box::new(alloc, |gate: Gate| constant_and(gate))?))?;
    rules.push(Rule::new(Box::new(alloc, |gate: Gate| constant_xor(gate))?))?;
    rules.push(Rule::new(Box::new(alloc, |gate: Gate| alike(gate))?))?;
    let rules = RuleSet::new(rules);
    let names = fs::read_to_string(&rt, "names.txt")?;
    for name in names.lines() {
        try_spec(&rt, name, &rules)?;
    }
    Ok(())
}
