//! Shifts, rotations, masks and single bits of words, as the HP-16C Owner's Handbook has them. Two
//! words are always of one size and read in one mode.
//!
//! - all bits at once: `not`, `and`, `or`, `xor`, `count_ones`, `left_justify`
//! - by one place: `sl`, `sr`, `asr`, `rl`, `rr`, `rlc`, `rrc`
//! - by as many places as a word says, else Error 2: `rln`, `rrn`, `rlcn`, `rrcn`
//! - masks of as many ones as a word says, else Error 2: `mask_left`, `mask_right`
//! - the bit whose number a word is, else Error 2: `set_bit`, `clear_bit`, `test_bit`
#![tactic(auto)]

mod counts;
mod logic;
mod masks;
mod rotations;
mod shifts;
mod single_bits;

pub use counts::Error2;
pub use logic::{and, count_ones, left_justify, not, or, xor};
pub use masks::{mask_left, mask_right};
pub use rotations::{rlcn, rln, rrcn, rrn};
pub use shifts::{asr, rl, rlc, rr, rrc, sl, sr};
pub use single_bits::{clear_bit, set_bit, test_bit};
