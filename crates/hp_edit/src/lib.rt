//! The program as a list of lines: edits, and the ways from line to line. Line 0 stands before the first.
#![tactic(auto)]

mod edits;
mod lines;

pub use edits::{Full, delete, insert};
pub use lines::{before, goto_line, next};
