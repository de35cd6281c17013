//! Arithmetic on words, with the flags that it sets, as the HP-16C Owner's Handbook has it. Two
//! words are always of one size and read in one mode.
//!
//! - of two words: `add`, `sub`, `mul`, `div`, `rmd`
//! - of one word: `chs`, `abs`, `root`
#![tactic(auto)]

mod products;
mod quotients;
mod roots;
mod signs;
mod sums;

pub use products::mul;
pub use quotients::{div, rmd};
pub use roots::root;
pub use signs::{abs, chs};
pub use sums::{add, sub};
