//! The lines of a source, one after another, no further than a limit, so that a text of any size is
//! read in the room of its longest line. Whatever reads lines as they come stands on this.
//!
//! - `SourceLines::new` begins, `advance` takes the next line, `line` gives it.
//! - `skip` reads what is left to its end, and keeps nothing of it.
//! - `read_until` hands the lines to a reader of jd_readers, up to the one that makes it whole.
#![tactic(auto)]

mod reading;
mod stops;
mod until;

pub use reading::SourceLines;
pub use stops::LineStop;
pub use until::read_until;
