//! The text of a spec: what its lines say one by one, in which order they stand, and the spec that a
//! whole text says. Nothing here takes memory.
//!
//! - The value: `Spec`.
//! - Texts: `read_spec`.
//! - The first bad line: `SpecFault` with its cause.
#![tactic(auto)]

mod formulas;
mod kinds;
pub mod laws;
mod lines;
mod names;
mod reader;
mod reading;
mod spec;

pub use jd_problem::ProblemCause;
pub use reader::read_spec;
pub use spec::{Spec, SpecFault};
