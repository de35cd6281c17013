//! Whether a routine gives what formulas over its start say.
//!
//! - The value: `Spec`, with its `Gives`, each a `GivenPart` and a `Formula` of `Token`s.
//! - Texts: `read_spec`; the first bad line: `SpecFault` with its `ProblemCause`.
//! - To judge: `specify`, which answers `Judged`.
#![tactic(auto)]

mod differences;
mod judges;

pub use jd_gives::{Formula, Give, GivenPart, Gives, Token};
pub use jd_judge::Judged;
pub use jd_spec_texts::{ProblemCause, Spec, SpecFault, read_spec};
pub use judges::specify;
