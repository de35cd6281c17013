//! Walks through two routines of each of many problems, which a byte 1 parts, and prints how many paths
//! and questions there are, how many paths the starts take where they are few, and what the judge and
//! the check of whole certificates say.
#![tactic(auto)]

mod all_paths;
mod checked;
mod starts;
mod values;

use anyhow::{Result, bail, ensure};
use jd_problem::{Problem, read_problem};
use jd_rules::RuleSet;
use std::alloc::Global;
use std::io::Read;

/// The byte between two problems.
const BETWEEN: u8 = 1;

/// The most free bits of a problem whose starts are followed one by one.
const FEW_BITS: u32 = 8;

/// Prints what all answers to a problem's questions lead to.
fn print_paths(rt: &impl Print, alloc: Global, problem: &Problem) -> Result<()> {
    match all_paths::count(alloc, problem)? {
        Some(counts) => println!(rt;
            "paths {} questions {} longest {} guards {}",
            counts.paths, counts.questions, counts.longest, counts.guards
        )?,
        None => println!(rt; "more than {} places", all_paths::PLACES)?,
    }
    Ok(())
}

/// Prints which paths the starts of a problem take, where they are few.
fn print_starts(rt: &impl Print, alloc: Global, problem: &Problem) -> Result<()> {
    let bits = problem.free_bits();
    if bits <= FEW_BITS {
        let taken = starts::follow_all(alloc, problem, bits)?;
        println!(rt;
            "starts {} take {} paths, longest {}, differ {}",
            taken.starts,
            taken.paths.len(),
            taken.longest,
            taken.differ
        )?;
    }
    Ok(())
}

/// Prints what the judge says, and what the check says of three certificates.
fn print_answers(rt: &impl Print, alloc: Global, problem: &Problem) -> Result<()> {
    let rules = RuleSet::new(Vec::new(alloc));
    let judged = checked::judged(alloc, problem, &rules)?;
    let cut = checked::cut_alone(alloc, problem, &rules)?;
    let fork = checked::fork_alone(alloc, problem, &rules)?;
    println!(rt; "{judged}; a cut alone: {cut}; a fork alone: {fork}")?;
    Ok(())
}

/// Prints what a walk through a text's problem meets.
fn print_walks(rt: &impl Print, alloc: Global, text: &[u8]) -> Result<()> {
    ensure!(text.len() < 1 << 28, "an input is too long");
    match read_problem(text) {
        Ok((problem, _)) => {
            print_paths(rt, alloc, &problem)?;
            print_starts(rt, alloc, &problem)?;
            print_answers(rt, alloc, &problem)
        }
        Err(_) => bail!("a problem isn't right"),
    }
}

fn main(rt: HostRuntime) -> Result<()> {
    let mut bytes = Vec::new(rt.alloc());
    rt.stdin().read_to_end(&mut bytes)?;
    for text in bytes.as_slice().split(|b| *b == BETWEEN) {
        print_walks(&rt, rt.alloc(), text)?;
    }
    Ok(())
}
