//! Asks circuits and numbers of literals what is known from elsewhere: a worked circuit under three sets
//! of rules, gates under four, and numbers whose answers `told.py` works out in Python.
#![tactic(auto)]

mod free;
mod numbers;
mod rule_sets;
mod words;
mod worked;

use jd_circuit::{Gate, NoMemory, NoRules, Rewrite};
use jd_rules::{Rule, RuleSet, alike, constant_and, constant_xor};
use std::alloc::{AllocError, Global};
use std::io;

fn print_worked<W: Rewrite>(rt: &impl Print, alloc: Global, rules: &W) -> io::Result<()> {
    match worked::circuit(alloc, rules) {
        Ok(line) => println!(rt; "{line:?}"),
        Err(NoMemory) => println!(rt; "no memory"),
    }
}

fn main(rt: HostRuntime) -> io::Result<()> {
    let alloc = rt.alloc();
    print_worked(&rt, alloc, &NoRules)?;
    print_worked(&rt, alloc, &RuleSet::new(Vec::new(alloc)))?;
    // The rules of the program.
    let mut rules: Vec<Rule> = Vec::new(alloc);
    rules.push(Rule::new(Box::new(alloc, |gate: Gate| constant_and(gate))?))?;
    rules.push(Rule::new(Box::new(alloc, |gate: Gate| constant_xor(gate))?))?;
    rules.push(Rule::new(Box::new(alloc, |gate: Gate| alike(gate))?))?;
    print_worked(&rt, alloc, &RuleSet::new(rules))?;
    match rule_sets::agree(alloc) {
        Ok(agreed) => println!(rt; "four sets of rules agree: {agreed}")?,
        Err(AllocError) => println!(rt; "no memory")?,
    }
    match free::gates(alloc) {
        Ok(gates) => println!(rt; "gates of doubled words and of powers of two: {gates}")?,
        Err(NoMemory) => println!(rt; "no memory")?,
    }
    numbers::print(&rt, alloc)
}
