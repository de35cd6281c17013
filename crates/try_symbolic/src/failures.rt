//! One type for all that stops a trial before its end, refused memory too, so that trials can hand
//! it on with `?` and print it in place of a result. None here is to come to that.
use jd_circuit::NoMemory;
use std::alloc::AllocError;

/// What stops a trial before its end.
#[derive(Clone, Copy, Debug, PartialEq, Eq)]
pub enum Failure {
    NoMemory,
    /// The text of a problem isn't read.
    Unreadable,
    /// A part of the start is free.
    FreeStart,
    /// The start doesn't fit the memory.
    Unfitting,
    /// A question's literal is no constant, and no answer was told.
    NoConstant,
    TooManyQuestions,
    TooManyGates,
    NoLine,
}

impl From<NoMemory> for Failure {
    fn from(_refused: NoMemory) -> Failure {
        Failure::NoMemory
    }
}

impl From<AllocError> for Failure {
    fn from(_refused: AllocError) -> Failure {
        Failure::NoMemory
    }
}
