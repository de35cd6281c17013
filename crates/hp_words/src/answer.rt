// The refusal of an operation on words.
use thiserror::Error;

/// A division by zero, the square root of a negative number, or a quotient that doesn't fit: Error 0.
#[derive(Clone, Copy, Debug, PartialEq, Eq, Error)]
#[error("Error 0")]
pub struct Error0;
