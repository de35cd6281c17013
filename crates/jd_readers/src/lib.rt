//! Readers of texts that take one line after another, up to the first bad line: to the end of the
//! text, or up to the line that ends what they read. Nothing here takes memory.
//!
//! - What a line means is handed in: `TakesLines`, and `TakesLinesToEnd` where it says when it is whole.
//! - The loops: `read_lines` to the end, `read_until` up to the line that makes it whole.
#![tactic(auto)]

pub mod ends;
pub mod lines;

pub use ends::{TakesLinesToEnd, read_until};
pub use lines::{TakesLines, read_lines};
