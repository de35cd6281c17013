//! Numbers as lists of literals, lowest first, and what one pass over them computes: sums, choices,
//! equality and functions bit by bit. The numbers that literals stand for are defined here.
//!
//! - to make a list: `Lits::new`, `push`, `Lits::of` a slice, `Lits::constant`
//! - to take it apart: `len`, `is_empty`, `at`, `part`, `append`, `above`, `resized`, `copy`
//! - of one or two literals: `choose`, `differ`
//! - of numbers: `add_lits`, `select`, `same`, `not_lits`, `join_lits` by a `Bitwise`
#![tactic(auto)]

mod adder;
mod bits;
mod choice;
mod differing;
mod list;

pub use adder::add_lits;
pub use bits::{Bitwise, join_lits, not_lits, same};
pub use choice::{choose, select};
pub use differing::differ;
pub use list::Lits;
