//! What a proof is: clauses, derivations from them, and the texts that hold both. The definitions
//! stand in `specs/`; the types that definitions and code share stand here. DIMACS CNF and LRAT are
//! read in their common text forms.
#![tactic(auto)]

pub mod answers;
pub mod laws;
pub mod lists;
pub mod log;

pub use answers::{BadLine, Verdict};
pub use lists::{Clause, Hints, Ids};
pub use log::Log;

/// A line of an LRAT proof.
#[derive(Debug, Drop)]
pub enum Line {
    /// A clause that follows from those of the hints, in their order. The id is 1 to 2^63 - 1.
    Derive {
        id: u64,
        clause: Clause,
        hints: Hints,
    },
    /// Clauses that are given up.
    Delete {
        ids: Ids,
    },
}

/// What is left of a clause once its false literals are taken away.
#[derive(Clone, Copy, Debug, PartialEq, Eq)]
pub enum Left {
    /// No literal is left: the clause is false.
    Falsified,
    /// This literal alone is left, however often it stands there.
    Unit(i32),
    /// Two literals or more are left.
    Open,
}
