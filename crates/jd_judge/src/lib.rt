//! Whether two routines agree from every start that a problem allows. The judge walks the paths that
//! starts take, lets a prover refute each leaf and cut, and answers with a certificate that the check
//! takes again; or with a start from which they differ, or the limit that it met.
//!
//! - to judge: `judge`, which answers `Judged`
//! - to check a certificate: `check`, or event by event `CheckRun`, which answer `Checked`
//! - what follows from an answer: `laws`
#![tactic(auto)]

mod claims;
mod judges;
pub mod laws;
mod outcomes;
mod starts;
mod steps;

pub use claims::{Agreement, Claim, NoDifference};
pub use jd_check::{Book, CheckRun, Checked, Kind, Leaf, Path, check};
pub use judges::{judge, judge_claim};
pub use outcomes::Judged;
pub use starts::Starts;
