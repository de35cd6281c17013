//! The lines of a text, one after another, and the words of a line. LF ends a line; blanks, tabs and
//! CR stand between words. Whatever reads a text stands on these definitions, and on no others.
//!
//! - Lines: `next_line` from a place on, `count_lines` of a text.
//! - Words: `next_word` and `skip_separators` from a place on, `is_text` and `is_separator` for one.
#![tactic(auto)]

pub mod lines;
pub mod words;

pub use lines::{count_lines, next_line};
pub use words::{is_separator, is_text, next_word, skip_separators};
