//! Leaves of walks through two routines, and the clauses that a certificate refutes.
#![tactic(auto)]

mod clauses;
mod leaf;
mod lists;

pub use jd_trees::Kind;
pub use leaf::Leaf;
pub use lists::{Book, Guards, Path};
