//! Products, quotients and roots of numbers of literals, by the ways of schoolbooks: each turn is a
//! sum or a difference of `jd_vectors`.
//!
//! - `mul_lits`, `div_lits`, `root_lits`
#![tactic(auto)]

mod divider;
mod multiplier;
mod root;
mod taking;

pub use divider::div_lits;
pub use multiplier::mul_lits;
pub use root::root_lits;
