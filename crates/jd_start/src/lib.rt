//! Starts of a run: their parts, their numbers and nibbles, what may be assumed of them, and how these
//! are written. Nothing here takes memory.
//!
//! - Starts: `Start` with its `Nibbles`; `content_numbers`, `start_with` and `content_with` as numbers.
//! - Parts: `Part`, `Parts` that are observed, `Fixed` values; `part_at`, `part_name`.
//! - Assumptions: `Assumed`, `meets`; their words by `num_part_named`, `relation_named`, `against_named`.
//! - Room: `register_nibbles` of a memory, `Bits` that are free.
//! - Writing: `push_word`, `push_number`, `push_nibbles`, and whole lines.
#![tactic(auto)]

mod assumption_words;
mod assumptions;
mod bits;
mod nibble_writer;
mod nibbles;
mod part_table;
mod parts;
mod start;
mod start_numbers;
mod word_writer;

pub use assumption_words::{
    against_named, num_part_name, num_part_named, relation_name, relation_named,
};
pub use assumptions::{Assumed, MOST_ASSUMED, meets};
pub use bits::{Bits, MOST_BITS, bit_number};
pub use nibble_writer::push_nibbles;
pub use nibbles::{MOST_BLOCKS, MOST_NIBBLES, Nibbles, register_nibbles};
pub use part_table::{part_at, part_name};
pub use parts::{Fixed, PART_COUNT, Part, Parts};
pub use start::Start;
pub use start_numbers::{CONTENT_NUMBERS, content_numbers, content_with, start_with};
pub use word_writer::{push_decimal_line, push_number, push_number_line, push_word};
