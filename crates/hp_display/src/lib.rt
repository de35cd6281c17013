//! The text of the display: X in a base and a window, the shown line of a program, STATUS, MEM and
//! errors. It reads a machine and changes nothing.
#![tactic(auto)]

mod digits;
mod numbers;
mod texts;
mod views;

// The display of a view, and what STATUS and MEM show.
pub use texts::{mem_line, status};
pub use views::display;
