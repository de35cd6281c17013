//! Products, quotients, remainders and roots of words, as circuits, by the signs and magnitudes of
//! `jd_rows`. Each gives, for all values that solve its gates, what the row of `hp_model` gives for the
//! numbers that its literals mean. A divisor's value isn't 0.
#![tactic(auto)]

mod divisions;
mod doubles;
mod products;
mod roots;

// Of words.
pub use divisions::{quotient, remainder};
pub use products::product;
pub use roots::square_root;

// Of numbers in two words, and whether their quotient is too great for one.
pub use doubles::{double_divide, double_multiply, double_remainder, quotient_is_too_great};
