//! The runs of a problem's two routines from a start, what is seen of them, and whether they agree.
//! Nothing here takes memory.
//!
//! - Running: `read_start` or `write_start` a start, `replay` both routines from it.
//! - Judging: `agree` on two that were `Seen`.
//! - Writing: `write_seen` with the routine's name, or `seen_text` without it.
#![tactic(auto)]

mod agreement;
mod replays;
pub mod seen;
mod seen_line;

pub use agreement::agree;
pub use hp_model::End;
pub use jd_problem::{read_start, write_start};
pub use replays::replay;
pub use seen::Seen;
pub use seen_line::{seen_text, write_seen};
