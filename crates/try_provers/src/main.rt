//! Lets both searches for a proof answer for clauses in DIMACS form, with all variables as inputs.
//!
//! With no words it takes many inputs, which a byte 1 parts, and prints what either search answered
//! for each: a log counts as the checker of LRAT judges its text behind the clauses, a model where
//! it makes each clause true. With the words `plain BUDGET` or `learning BUDGET` it takes one input
//! and writes that search's log in LRAT form, or a comment that says what else it answered: so the
//! clauses with its output behind them are an input of `hp16c lrat`.
#![tactic(auto)]

mod answers;
mod inputs;
mod searches;
#[cfg(test)]
mod tests;
mod writing;

use crate::answers::{answer_to, log_text};
use crate::searches::Search;
use anyhow::{Result, bail};
use std::alloc::Global;
use std::env;
use std::io::{Read, Write};

/// The byte between two inputs.
const BETWEEN: u8 = 1;

/// The budget for each of many inputs, the greatest that a search takes.
const BUDGET: u32 = 1 << 20;

/// What a search answers for one of many inputs.
fn print_answer(rt: &impl Print, alloc: Global, search: Search, input: &[u8]) -> Result<()> {
    let answer = answer_to(alloc, search, BUDGET, input)?;
    println!(rt; "{search} {answer}")?;
    Ok(())
}

/// What both searches answer for many inputs.
fn print_answers(rt: &impl Print, alloc: Global, bytes: &[u8]) -> Result<()> {
    for input in bytes.split(|b| *b == BETWEEN) {
        print_answer(rt, alloc, Search::Plain, input)?;
        print_answer(rt, alloc, Search::Learning, input)?;
    }
    Ok(())
}

fn main(rt: HostRuntime) -> Result<()> {
    let alloc = rt.alloc();
    let words: Vec<String> = env::args(&rt)?.skip(1).collect(alloc)?;
    let mut bytes = Vec::new(alloc);
    rt.stdin().read_to_end(&mut bytes)?;
    if words.is_empty() {
        return print_answers(&rt, alloc, bytes.as_slice());
    }
    let Some((search, budget)) = Search::asked(words.as_slice()) else {
        bail!("the words are: plain BUDGET, learning BUDGET, or none");
    };
    let text = log_text(alloc, search, budget, bytes.as_slice())?;
    rt.stdout().write_all(text.as_slice())?;
    Ok(())
}
