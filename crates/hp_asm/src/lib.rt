//! Routines of the machine as text: assembly, with one operation a line, and codes, two hexadecimal
//! digits each. Nothing here takes memory.
//!
//! - Assembly: `assemble` a text, `take_line` for one line, `list` a routine.
//! - Codes: `read_codes`, `codes`.
//! - Values: `Routine`; the faults `AsmFault` with its `AsmCause`, and `CodeFault`.
#![tactic(auto)]

mod assembly;
mod code_texts;
mod faults;
mod operations;
mod routine;

pub use assembly::{assemble, list, take_line};
pub use code_texts::{codes, read_codes};
pub use faults::{AsmFault, CodeFault};
pub use jd_model::AsmCause;
pub use routine::Routine;
