//! What a walk tells and what it keeps for later: the end of the first run, which the difference
//! needs, and each question answered with no, to which `answers` goes back.
use crate::runs::Position;
use hp_model::End;
use jd_circuit::{Lit, Mark};
use jd_content::SymContent;

/// What comes next on a path: a question, or the end of both runs, with the literal that is true
/// exactly where the two aren't seen the same.
#[derive(Clone, Copy, Debug, PartialEq, Eq)]
pub enum Next {
    Ask(Lit),
    Done(Lit),
}

/// What a symbolic run ends with: it is late, or its end and the literals there.
#[derive(Drop)]
pub enum SymEnd {
    Late,
    Ended(End, SymContent),
}

/// How a run ended, which is None where it is late, and the literals there.
#[derive(Drop)]
pub struct RunEnd {
    pub end: Option<End>,
    pub content: SymContent,
}

/// The end of the first run, and the length of the path there.
#[derive(Drop)]
pub struct FirstEnd {
    pub path: usize,
    pub run: RunEnd,
}

/// A question that was answered with no: its place on the path, its literal, the circuit there and
/// where the run stood.
#[derive(Drop)]
pub struct Saved {
    pub at: usize,
    pub ask: Lit,
    pub mark: Mark,
    pub position: Position,
}
