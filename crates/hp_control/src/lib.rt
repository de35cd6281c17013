//! What operations do to control, from the answers to what they ask: the calculator and a machine
//! of literals take the same way by it. It sees a program's codes, and nothing of the data.
#![tactic(auto)]

mod answers;
mod calls;
mod control;
mod digits;
mod errors;
mod jumps;
mod moves;
mod program;
mod step;
mod targets;

// What control is, and what it sees of a program.
pub use calls::Calls;
pub use control::Control;
pub use program::Program;

// One operation: done whole, or its error asked first and then either of both done.
pub use errors::error_of;
pub use moves::fail;
pub use step::{step_control, step_done};

// What the data needs to know: the number in entry, a word size, how many registers there are.
pub use answers::{answer_at, number_given};
pub use digits::new_entry;
pub use errors::register_count;
pub use step::size_given;
