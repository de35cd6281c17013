//! The check of a certificate against a problem, event by event, so that neither its bytes nor its
//! tree are kept: whether the tree covers, whether each line is right, and whether each leaf and cut
//! is refuted. It stands on the walk for leaves and on the checker for lines.
//!
//! - step by step: `CheckRun::new`, `event`, `finish`
//! - a whole certificate: `check`
//! - what follows from an answer: `laws`
#![tactic(auto)]

mod checked;
mod going;
pub mod laws;
mod lines;
mod nodes;
mod progress;
mod run;
mod turns;
mod whole;

pub use checked::Checked;
pub use going::CheckRun;
pub use jd_walk::{Book, Kind, Leaf, Path};
pub use whole::check;
