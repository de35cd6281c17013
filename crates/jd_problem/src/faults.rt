//! The first bad line of a text, as callers see it; the causes stand with the definitions.
use jd_model::ProblemCause;
use thiserror::Error;

/// The first line of a problem or a start that is refused, counted from 1 over all lines, and why.
#[derive(Clone, Copy, Debug, PartialEq, Eq, Error)]
#[error("bad line {line}")]
pub struct ProblemFault {
    pub line: u32,
    pub cause: ProblemCause,
}
