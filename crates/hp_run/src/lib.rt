//! The calculator under its keys: runs of a program, and what each key does in run mode and in
//! program mode. Operations are hp_core's; edits are hp_edit's, and prefixes hp_keys'.
#![tactic(auto)]

mod calculators;
mod commands;
mod editing;
mod lines;
mod navigation;
mod pressed_operations;
mod presses;
mod runs;
mod stepping;

// The calculator: `new`, with so much memory; `copy`; `is_ready`, `begin_run`, `run_line` and `cut_run` for a
// run line by line; keys pressed one by one, or in turn.
pub use calculators::Calculator;
pub use presses::{press, press_all};

// A run of the program, and how it came out.
pub use runs::{LINES_PER_KEY, RunEnd, run};
