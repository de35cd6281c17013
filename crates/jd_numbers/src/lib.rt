//! Words of digits as numbers, and numbers as words of digits: decimal, and hexadecimal in either
//! case, written in upper case.
//!
//! - Read: `decimal_number`, `hexadecimal_number`, `are_digits`, `digit_value`.
//! - Written: `push_decimal`, `push_hexadecimal`, `push_digit`, `flag_digit`.
#![tactic(auto)]

pub mod numbers;
pub mod writing;

pub use numbers::{are_digits, decimal_number, digit_value, hexadecimal_number};
pub use writing::{flag_digit, push_decimal, push_digit, push_hexadecimal};
