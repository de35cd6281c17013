//! A debugger for the calculator's programs that steps back: it records the whole state of the
//! calculator before each key and each line of a run.
//!
//! - The debugger: `Debugger`, and how a run stopped, `Stopped`.
//! - Scripts of keys and commands for it: `debug` does a whole one and writes a line for each of its lines.
//! - What follows for whole histories and runs: `laws`.
#![tactic(auto)]

mod commands;
mod debuggers;
mod execution;
mod history;
pub mod laws;
mod parsing;
mod scripts;
mod stops;

// `new`, `calculator`; `press`, `step`, `go`, `back`; `set_break`, `clear_break`.
pub use debuggers::Debugger;
pub use stops::Stopped;

// Scripts.
pub use scripts::{Debugged, debug};
