//! The machine: control, what operations work on, and memory, and one operation done to it. Control
//! is decided below, in hp_control, from the answers that the data gives here.
#![tactic(auto)]

mod answers;
mod arithmetic;
mod bits;
mod create;
mod digits;
mod double;
mod flags;
mod given;
mod labels;
mod listing;
mod loops;
pub mod machine;
mod moves;
mod registers;
mod settings;
mod shifts;
mod stack;
mod step;
mod step_all;
mod tests_of_x;
mod words;

// The machine: `new`, `begin`, `copy`; `step`, `step_all`; `op_at`; `x_word`.
pub use machine::Machine;

// What decides which operation comes next.
pub use hp_control::{Calls, Control};

// Whether a run goes on after an operation, and how it ends.
pub use hp_model::{End, Stop};
