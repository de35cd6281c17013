//! Key files that an independent program ran, and what it printed: the definitions print the same.
#![tactic(auto)]

pub mod laws;
