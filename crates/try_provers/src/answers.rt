//! A search isn't taken at its word here: the checker of `jd_lrat` judges its log as text behind
//! the clauses, and a model is tried on each clause. `main` prints what came of it, or the log as
//! it is.

use crate::inputs::inputs_of;
use crate::searches::Search;
use crate::writing::{put_bits, put_lines};
use anyhow::{Result, bail};
use jd_lrat::{Clauses, Line, Verdict, check_text, read_cnf};
use jd_propagate::Proof;
use std::alloc::Global;
use std::fmt;

/// A search's answer, once it was looked at.
#[derive(Clone, Copy, Debug, PartialEq, Eq)]
pub enum Answer {
    Refuted,
    Model,
    Unknown,
    /// A model that leaves a clause false, or a log with this verdict, which shows nothing.
    NoModel,
    NoProof(Verdict),
}

impl fmt::Display for Answer {
    fn fmt<W: fmt::Write>(&self, f: &mut fmt::Formatter<W>) -> fmt::Result {
        match self {
            Answer::Refuted => write!(f, "refuted"),
            Answer::Model => write!(f, "model"),
            Answer::Unknown => write!(f, "unknown"),
            Answer::NoModel => write!(f, "no model"),
            Answer::NoProof(verdict) => write!(f, "no proof: {verdict}"),
        }
    }
}

/// Whether values make a literal true.
fn is_true(bits: &[bool], l: i32) -> bool {
    match bits.get((l.unsigned_abs() as usize).wrapping_sub(1)) {
        Some(bit) => *bit == (l > 0),
        None => false,
    }
}

/// Whether values make each clause true.
fn is_model(clauses: &Clauses, bits: &[bool]) -> bool {
    for at in 0..clauses.len() {
        if !clauses.clause(at).iter().any(|l| is_true(bits, *l)) {
            return false;
        }
    }
    true
}

/// The verdict on clauses, as text, with the lines of a log behind them.
fn verdict(alloc: Global, clauses: &[u8], lines: &[Line]) -> Result<Verdict> {
    let mut text = Vec::new(alloc);
    text.extend_from_slice(clauses)?;
    put_lines(&mut text, lines)?;
    if text.len() >= 1 << 31 {
        bail!("a log is too long");
    }
    match check_text(alloc, text.as_slice()) {
        Ok(verdict) => Ok(verdict),
        Err(_) => bail!("no memory"),
    }
}

/// What a verdict makes of a log, where another verdict is due.
fn of_verdict(verdict: Verdict, due: Verdict, answer: Answer) -> Answer {
    if verdict == due {
        answer
    } else {
        Answer::NoProof(verdict)
    }
}

/// The clauses of an input, and where they end.
fn clauses_of(alloc: Global, input: &[u8]) -> Result<(Clauses, usize)> {
    if input.len() >= 1 << 31 {
        bail!("an input is too long");
    }
    match read_cnf(alloc, input) {
        Ok(read) => Ok(read),
        Err(_) => bail!("no clauses"),
    }
}

/// What a search answers for an input, looked at.
pub fn answer_to(alloc: Global, search: Search, budget: u32, input: &[u8]) -> Result<Answer> {
    let (clauses, _) = clauses_of(alloc, input)?;
    match search.prove(alloc, &clauses, inputs_of(&clauses), budget)? {
        Proof::Refuted(log) => {
            let verdict = verdict(alloc, input, log.lines())?;
            Ok(of_verdict(verdict, Verdict::Refuted, Answer::Refuted))
        }
        Proof::Unknown(log) => {
            let verdict = verdict(alloc, input, log.lines())?;
            Ok(of_verdict(verdict, Verdict::NotRefuted, Answer::Unknown))
        }
        Proof::Model(bits) => {
            if is_model(&clauses, bits.as_slice()) {
                Ok(Answer::Model)
            } else {
                Ok(Answer::NoModel)
            }
        }
    }
}

/// The text of what a search answers for an input: the lines of its log, after a comment where they
/// refute nothing, or a comment with the values of a model.
pub fn log_text(alloc: Global, search: Search, budget: u32, input: &[u8]) -> Result<Vec<u8>> {
    let (clauses, _) = clauses_of(alloc, input)?;
    let mut text = Vec::new(alloc);
    match search.prove(alloc, &clauses, inputs_of(&clauses), budget)? {
        Proof::Refuted(log) => put_lines(&mut text, log.lines())?,
        Proof::Unknown(log) => {
            text.extend_from_slice(b"c unknown\n")?;
            put_lines(&mut text, log.lines())?;
        }
        Proof::Model(bits) => put_bits(&mut text, bits.as_slice())?,
    }
    Ok(text)
}
