//! Problems, which ask whether two routines agree, and the starts of their runs: what they are, and
//! their texts. Nothing here takes memory.
//!
//! - Problems: `Problem`, with its `Extent` of memory, `Parts`, `Fixed`, `Assumed` and two `Routine`s.
//! - Its starts: `Problem::in_range`, `allows`, `free_bits`, `start_of` some `Bits`, `blocks`.
//! - Texts of problems: `read_problem` with the bytes that it takes, `write_problem`; `ProblemReader` for
//!   a problem whose lines come one after another.
//! - Lines that other texts share with problems: `take_kind`, `take_assembly`, `one_number`.
//! - Texts of starts: `read_start` for a problem, `write_start`.
//! - The first bad line: `ProblemFault` with its `ProblemCause`.
#![tactic(auto)]

mod faults;
mod fields;
mod line_kinds;
mod line_words;
pub mod problem;
mod problem_fields;
mod problem_lines;
mod problem_reader;
mod problem_writer;
mod reading;
mod start_lines;
mod start_reader;
mod start_reading;
mod start_writer;

pub use faults::ProblemFault;
pub use hp_asm::{AsmCause, Routine};
pub use hp_model::Extent;
pub use hp_words::{Base, Content, Mode, WordSize};
pub use jd_model::{Against, Assume, NumPart, ProblemCause, Relation};
pub use jd_start::{Assumed, Bits, Fixed, Nibbles, Part, Parts, Start};
pub use line_words::one_number;
pub use problem::Problem;
pub use problem_lines::{take_assembly, take_kind};
pub use problem_reader::read_problem;
pub use problem_writer::write_problem;
pub use reading::Reading as ProblemReader;
pub use start_reader::read_start;
pub use start_writer::write_start;
