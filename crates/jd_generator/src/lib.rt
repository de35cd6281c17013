//! The problem of a number, whose two routines draw the same steps, each in its own words.
//!
//! - `generate` makes it. `jd_generated` defines it, and proves that its routines agree.
#![tactic(auto)]

mod draws;
mod problems;

pub use problems::generate;
