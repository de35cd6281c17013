//! Walks through the runs of two routines, answer by answer, and the leaves where they end.
#![tactic(auto)]

mod answers;
mod begins;
mod differences;
mod leaves;
mod lines;
mod places;
mod runs;
mod walks;

pub use differences::Difference;
pub use jd_leaves::{Book, Guards, Kind, Leaf, Path};
pub use places::{Next, SymEnd};
pub use walks::Walk;
