//! Words moved by places, and single places of words, as circuits. Each gives, for all values that
//! solve its gates, what the row of `hp_model` gives for the numbers that its literals mean.
#![tactic(auto)]

mod masks;
mod place_counts;
mod shifts;
mod turns;

// Words moved by one place, and turned by as many as a number of literals says.
pub use shifts::{
    rotated_left, rotated_left_with_carry, rotated_right, rotated_right_with_carry,
    shifted_arithmetic, shifted_left, shifted_right,
};
pub use turns::{turned_left, turned_right};

// Masks, single bits and left justification.
pub use masks::{bit_is_set, clear_bit, justified, mask_left, mask_right, set_bit};

// A word as a number of places, and how many of its bits are 1.
pub use place_counts::{ones_of, places_of};
