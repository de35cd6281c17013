//! Leaves that keep only what their guards and their difference stand on: the cone of those gates,
//! numbered anew.
//!
//! - `cone` of a leaf
//! - `marking`: which variables are needed, from the last gate back to the first
//! - `renumbering`: the needed gates with their new numbers, from the first to the last
#![tactic(auto)]

mod cones;
mod laws;
mod marking;
mod renumbering;

pub use cones::cone;
pub use jd_leaves::Leaf;
pub use laws::faithful_cones;
