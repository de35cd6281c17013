//! Certificates: trees of forks, leaves and cuts, and their text, line by line. The definitions, which
//! readers, books and the judge share, stand in `specs/`; the types that they share with code stand
//! here, and what is proved of the definitions alone in `laws`.
#![tactic(auto)]

pub mod laws;

use jd_logic::{Line, Log};

/// Whether a leaf stands where both runs are over, or was cut before.
#[derive(Clone, Copy, Debug, PartialEq, Eq)]
pub enum Kind {
    Whole,
    Cut,
}

/// A node of a certificate. The nodes of a tree are listed with each fork before its two subtrees, and
/// the subtree of no before that of yes.
#[derive(Debug, Drop)]
pub enum Node {
    /// A question, whose two subtrees follow.
    Fork,
    /// A leaf where both runs are over, with the lines that refute it.
    Leaf(Log),
    /// A leaf where the runs can't come, with the lines that refute it.
    Cut(Log),
}

/// Where a line of a certificate stands. What it may say depends on nothing else.
#[derive(Clone, Copy, Debug, PartialEq, Eq)]
pub struct Spot {
    /// Whether the first line, `certificate 1`, was there.
    pub begun: bool,
    /// How many trees are still to come. A leaf or cut that is open is one of them.
    pub due: u64,
    /// Whether a leaf or cut is open.
    pub inside: bool,
}

/// What a line of a certificate says.
#[derive(Debug, Drop)]
pub enum CertEvent {
    /// Nothing: the line has no words, or is the first line of the certificate.
    Nothing,
    /// A fork, whose two subtrees follow.
    Fork,
    /// A leaf begins.
    Leaf,
    /// A cut begins.
    Cut,
    /// A line of the leaf or cut that began last.
    Proof(Line),
    /// The leaf or cut ends.
    End,
}
