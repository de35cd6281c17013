//! What assembly texts and texts of codes are, what a problem and its starts are and their texts,
//! and what is seen of the runs of two routines. The definitions stand in `specs/`; the types that
//! definitions and code share stand here.
//!
//! - Refusals: `AsmCause`, `ProblemCause`.
//! - Lines of a problem: `Version`, `LineKind`.
//! - Assumptions: `Assume`, of a `NumPart`, a `Relation` and what stands `Against` it.
#![tactic(auto)]

pub mod assumptions;
pub mod causes;
pub mod laws;
pub mod line_kinds;

pub use assumptions::{Against, Assume, NumPart, Relation};
pub use causes::{AsmCause, ProblemCause};
pub use line_kinds::{LineKind, Version};
