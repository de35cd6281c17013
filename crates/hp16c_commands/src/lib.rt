//! The commands of the program hp16c, and the call that does the one that the words name. `keys` writes
//! the display of each line as it has read it, and `gen` reads nothing. Every other command reads its
//! source to the end before it answers, and all of these have one form: a limit, what an answer to some
//! bytes is, and a function that finds one. `check` takes its source line by line; the rest keep the
//! bytes until they answer. `debug` writes each line of its answer as it comes to it. `judge`, `spec` and
//! `short` ask one judge, and what it answers is told by one function.
//!
//! - Doing what the words say: `hp16c`, which gives an `Outcome` of a `Status` and what is `Kept`.
#![tactic(auto)]

mod after_problem;
mod answers;
mod checking;
mod commands;
mod debugging;
mod generating;
mod judging;
mod key_files;
mod lrat;
mod outcomes;
mod path_texts;
mod refusals;
mod replays;
mod routines;
mod shortening;
mod specifying;
mod told;
mod top_call;
mod whole_inputs;

pub use commands::Command;
pub use outcomes::{Kept, Outcome, Status};
pub use top_call::hp16c;
pub use whole_inputs::WholeInput;
