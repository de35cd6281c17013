//! A search for a refutation or a model that decides the inputs in their order, those that no
//! watched clause names last.
//!
//! The search: `prove`. What every search over the clauses stands on: `Solver`, `setup::prepare`,
//! `explain`.
#![tactic(auto)]

pub mod decide;
pub mod explain;
mod line;
mod order;
mod search;
pub mod setup;
mod solver;

pub use jd_propagate::Proof;
pub use line::negations;
pub use search::prove;
pub use solver::{BOUND, Solver, make_true};
