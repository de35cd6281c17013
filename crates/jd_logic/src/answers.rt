//! What a check answers, and how that is printed. Stated here, below the checker, since
//! definitions speak of it.
use std::fmt;

/// Why a line of a proof isn't right. The number is the hint's, or the id that a deletion names.
#[derive(Clone, Copy, Debug, PartialEq, Eq)]
pub enum BadLine {
    /// The id isn't greater than every id before it, deleted ones included.
    IdOrder,
    /// No clause has this id, or it was deleted.
    NoClause(i64),
    /// The hint's clause has two literals or more that aren't false.
    NotUnit(i64),
    /// The hints end, and no clause was false.
    NoConflict,
    /// A hint is negative, as in RAT steps, which aren't taken.
    RatLine,
}

/// What the check of a whole text says: clauses in DIMACS form, then LRAT lines.
#[derive(Clone, Copy, Debug, PartialEq, Eq)]
pub enum Verdict {
    /// The text is outside the grammar. The line is the first such, counted from 1 over all lines.
    NotText { line: u64 },
    /// Every line is right, and the empty clause was given or derived.
    Refuted,
    /// Every line is right, and the empty clause wasn't derived.
    NotRefuted,
    /// A line isn't right. The line is the first such, counted from 1 over the lines of the proof.
    Bad { line: u64, cause: BadLine },
}

/// `IdOrder`, `NoClause H`, `NotUnit H`, `NoConflict` or `RatLine`.
impl fmt::Display for BadLine {
    ghost use Rattle.std.specs.Prelude.{Some};
    ghost use Rattle.jd_logic.specs.LratCommand.{cause_text};

    ghost output = { λ cause. Some (cause_text cause) };

    fn fmt<W: fmt::Write>(&self, f: &mut fmt::Formatter<W>) -> fmt::Result {
        match self {
            BadLine::IdOrder => write!(f, "IdOrder"),
            BadLine::NoClause(hint) => {
                let hint = hint.unsigned_abs();
                write!(f, "NoClause {hint}")
            }
            BadLine::NotUnit(hint) => {
                let hint = hint.unsigned_abs();
                write!(f, "NotUnit {hint}")
            }
            BadLine::NoConflict => write!(f, "NoConflict"),
            BadLine::RatLine => write!(f, "RatLine"),
        }
    }
}

/// `refuted`, `not refuted`, `bad line N` or `bad - LINE CAUSE`.
impl fmt::Display for Verdict {
    ghost use Rattle.std.specs.Prelude.{Some};
    ghost use Rattle.jd_logic.specs.LratCommand.{verdict_text};

    ghost output = { λ verdict. Some (verdict_text verdict) };

    fn fmt<W: fmt::Write>(&self, f: &mut fmt::Formatter<W>) -> fmt::Result {
        match self {
            Verdict::NotText { line } => write!(f, "bad line {line}"),
            Verdict::Refuted => write!(f, "refuted"),
            Verdict::NotRefuted => write!(f, "not refuted"),
            Verdict::Bad { line, cause } => write!(f, "bad - {line} {cause}"),
        }
    }
}
