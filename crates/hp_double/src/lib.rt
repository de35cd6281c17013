//! Products in two words, and division of a number of two words by one, as the HP-16C Owner's
//! Handbook has them. The words are always of one size and read in one mode.
//!
//! - of two words: `dbl_mul`
//! - of three words: `dbl_div`, `dbl_rmd`
#![tactic(auto)]

mod division;
mod product;
mod signed;

pub use division::{dbl_div, dbl_rmd};
pub use product::dbl_mul;
