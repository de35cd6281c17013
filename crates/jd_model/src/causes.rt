//! Why a line of a routine's text, of a problem or of a start is refused. Code and definitions
//! share these types.

/// Why a line of an assembly text is refused. Of those that stand together, the first comes.
#[derive(Clone, Copy, Debug, PartialEq, Eq)]
pub enum AsmCause {
    /// The first word is a key of the floating-point mode: `FLOAT`, `EEX`, `1/X` or `.`.
    FloatKey,
    /// No operation's text begins with the first word.
    UnknownWord,
    /// A word after the first is missing, wrong, or one too many.
    BadOperand,
    /// The line is an operation, and 203 operations stand before it.
    TooManyLines,
}

/// Why a line of a problem or of a start is refused. Of those that stand together, the first comes.
#[derive(Clone, Copy, Debug, PartialEq, Eq)]
pub enum ProblemCause {
    /// The line isn't formed as its kind says, or is of no kind that may stand there.
    Syntax,
    /// A line of this kind was given before, or a part twice.
    Repeated,
    /// A line that belongs before this one wasn't given, or the text ends too early.
    Missing,
    /// A number isn't in its range, there are too many nibbles, or a part isn't as it is fixed.
    Range,
    /// The line stands in a routine, and isn't assembly.
    Asm(AsmCause),
}
