//! Rotations through the carry by as many places as a number of literals says. They are rotations of
//! the word with its carry on top. `proofs/` has what moves and counts of `jd_shifts` mean as the
//! machine's rows, for `jd_places` too.
#![tactic(auto)]

mod turns;

// The word and the carry after so many places.
pub use turns::{turn_left_with_carry, turn_right_with_carry};
