//! Shorter routines that a judge agrees with: pieces of a routine are replaced by the table of
//! `jd_pieces`, one after another, as long as the judge shows that the routine still agrees with the
//! source from every allowed start. The answer has a certificate, and for each piece that stays the
//! judge's reason.
//!
//! - `shorten` a problem's first routine, which answers `Shortened`
#![tactic(auto)]

mod differences;
mod judgements;
mod pairs;
mod refusals;
mod rounds;
mod shortenings;

pub use jd_pieces::Candidate;
pub use pairs::paired;
pub use refusals::{Refusal, Refusals};
pub use rounds::{Shortened, shorten};
