//! What the rows of the operation table answer, as circuits: sums, differences and signs, what is asked
//! of words, and words as magnitudes with signs, from which products and places are made above. Each
//! gives, for all values that solve its gates, what the row of `hp_model` gives for the numbers that its
//! literals mean; nothing of the machine's state is known here.
#![tactic(auto)]

mod answer;
mod constants;
mod magnitudes;
mod questions;
mod signs;
mod sums;
mod words;

// Answers: a pattern, and the flags that are set or cleared.
pub use answer::SymAnswer;

// Numbers that are the same for all values.
pub use constants::{low_ones, power};

// Arithmetic on one or two words.
pub use signs::{absolute, negation};
pub use sums::{difference, sum};
pub use words::difference_pattern;

// Words as magnitudes with signs, and the patterns and ranges of such numbers.
pub use magnitudes::{magnitude, out_of_range, pattern_of, ranged};

// What operations ask of words.
pub use questions::{is_at_least, magnitude_is_above_size, magnitude_is_size_or_more};
pub use words::{is_zero, less, zero_test};
