//! What numbers of literals need more than one pass for, or a sum: comparison, negation, counts,
//! and moves by as many places as literals say.
//!
//! - of numbers: `less`, `negate`, `ones`
//! - moves: `shift_left`, `rotate_left`, `left_justify`
#![tactic(auto)]

mod compare;
mod counts;
mod justify;
mod shifts;

pub use compare::{less, negate};
pub use counts::ones;
pub use justify::left_justify;
pub use shifts::{rotate_left, shift_left};
