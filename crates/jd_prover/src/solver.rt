//! All that a search knows, in one record that both searches share and propagation changes: the
//! watched clauses, the trail with its reasons, where each decision stands in it, and the lines so
//! far.

ghost use Rattle.std.specs.Prelude.{◌≡◌, ◌++◌, ◌∷◌, [], false, OnOk};
ghost use Rattle.jd_logic.specs.Literals.{IsLiteral};
ghost use Rattle.jd_proving.specs.Propagation.{has_value};

use jd_propagate::{Clauses, Line, NoMemory, Reason, Trail};

/// The variables and the clauses of a search are fewer, so that a variable's literals are `i32`.
pub const BOUND: u32 = 1 << 31;

/// What a search knows.
#[derive(Drop)]
pub struct Solver {
    /// The clauses of two different literals or more, with the places where they were given.
    pub long: Clauses,
    pub origins: Vec<usize>,
    /// The two watched literals of each, and the clauses that watch each literal.
    pub firsts: Vec<i32>,
    pub seconds: Vec<i32>,
    pub lists: Vec<Vec<usize>>,
    /// The true literals, and why each is true.
    pub trail: Trail,
    pub reasons: Vec<Reason>,
    /// The decisions, and how many literals were true before each.
    pub decisions: Vec<i32>,
    pub limits: Vec<usize>,
    /// The lines derived.
    pub lines: Vec<Line>,
}

/// Makes a literal true that has no value.
pub fn make_true(
    trail: &mut Trail,
    reasons: &mut Vec<Reason>,
    l: i32,
    reason: Reason,
) -> Result<(), NoMemory>
    requires literal { IsLiteral l }
    requires no_value { has_value trail.old l ≡ false }
    ensures trail { OnOk result (trail.new ≡ trail.old ++ l ∷ []) }
    ensures reasons { OnOk result (reasons.new.items ≡ reasons.old.items ++ reason ∷ []) }
{
    trail.push(l)?;
    reasons.push(reason)?;
    Ok(())
}
