//! The check of a source that holds a problem and then a certificate, line by line. Neither the text
//! nor the tree of the certificate is kept: memory goes to the leaves of the walk, to the clauses of
//! the leaf that is open, and to the longest line.
//!
//! - `check_source` answers `SourceChecked`, or why no further line is had.
#![tactic(auto)]

mod cert_lines;
mod certificates;
pub mod laws;
mod source_checked;
mod sources;

pub use jd_check::Checked;
pub use jd_lines::LineStop;
pub use source_checked::SourceChecked;
pub use sources::check_source;
