//! The literal that is true exactly where two symbolic runs aren't seen the same: one is late, they
//! end differently, or an observed part differs. Parts are compared as numbers, so words of different
//! sizes are filled with zeros.
#![tactic(auto)]

mod ends;
mod memory;
mod numbers;

pub use ends::difference;
pub use numbers::number_at;
