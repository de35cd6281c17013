//! A search for a refutation or a model that learns from each conflict.
//!
//! The search: `prove`, which answers as `jd_prover::prove` does.
#![tactic(auto)]

mod analysis;
mod learning;
mod order;
mod restarts;
mod search;

pub use jd_propagate::Proof;
pub use search::prove;
