//! Why a text gives no routine.
use jd_model::AsmCause;
use thiserror::Error;

/// The first line of an assembly text that is refused, counted from 1 over all lines, and why.
#[derive(Clone, Copy, Debug, PartialEq, Eq, Error)]
#[error("bad line {line}")]
pub struct AsmFault {
    pub line: u32,
    pub cause: AsmCause,
}

/// The first line of a text of codes with a word that is no code or a code too many, counted from 1
/// over all lines.
#[derive(Clone, Copy, Debug, PartialEq, Eq, Error)]
#[error("bad line {line}")]
pub struct CodeFault {
    pub line: u32,
}
