//! The versions of a problem's text, and the kinds of its lines. Code and definitions share these
//! types; the order of the lines stands in the definitions.

/// By which rules the text of a problem is read. Version 2 can choose the memory and state
/// assumptions.
#[derive(Clone, Copy, Debug, PartialEq, Eq)]
pub enum Version {
    One,
    Two,
}

/// A line of a problem by its first word. The lines of the two routines between them are assembly.
#[derive(Clone, Copy, Debug, PartialEq, Eq)]
pub enum LineKind {
    /// `problem`: the version of the text.
    Problem,
    /// `word`: the word size in bits.
    Size,
    /// `mode`: 0 unsigned, 1 one's complement, 2 two's complement.
    Mode,
    /// `base`: 16, 10, 8 or 2.
    Base,
    /// `memory`: 203 or 609 bytes.
    Memory,
    /// `steps`: the bound of each run.
    Steps,
    /// `paths`: the most paths that a judge may walk.
    Paths,
    /// `budget`: the most lines of proof that a judge may spend on one question.
    Budget,
    /// `observe`: the parts that are compared.
    Observe,
    /// `fix`: a part with one value in all starts.
    Fix,
    /// `assume`: a comparison that holds of all starts.
    Assume,
    /// `first`: the first routine follows.
    First,
    /// `second`: the second routine follows.
    Second,
    /// `end`: the end of the problem.
    End,
}
