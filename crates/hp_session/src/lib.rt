//! Key files: the keys of their words are pressed on a new calculator of the size that the file names, and
//! each line gives its display.
#![tactic(auto)]

mod reading;
pub mod sessions;

pub use sessions::{SessionEnd, session};
