//! Comparisons of the values of words, and a word less one or plus one, by circuits of `jd_rows`.
#![tactic(auto)]

mod compare;
mod counting;

// Whether one value is below another, or equal to it.
pub use compare::{are_equal, is_below};

// The index register less one and plus one.
pub use counting::counted_index;
