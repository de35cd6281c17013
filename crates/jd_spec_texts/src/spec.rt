//! A spec as callers hold it, with what its text keeps to as facts of the type, and the first bad
//! line of a text.
ghost use Rattle.std.specs.Prelude.{◌≡◌, ◌≢◌, ◌≤◌, [], true, false, length, replicate, AllPairs};
ghost use Rattle.std.specs.List.{list_all};
ghost use Rattle.jd_formulas.specs.Formulas.{is_formula_in_range};
ghost use Rattle.jd_start.specs.Parts.{marks_of};
ghost use Rattle.jd_start.specs.declared.parts.TheConstants.{PART_COUNT};

use jd_gives::Gives;
use jd_problem::{Problem, ProblemCause};
use thiserror::Error;

/// What a routine is to give from each allowed start of a problem. The routine is the problem's first;
/// its second has no lines, and it observes nothing.
#[derive(Drop)]
pub struct Spec {
    pub problem: Problem,
    pub gives: Gives,
    pub ghost some: { 1 ≤ length gives },
    pub ghost once: { AllPairs (λ a b. a.part ≢ b.part) gives },
    pub ghost formulas: { list_all (λ g. is_formula_in_range problem.size.bits g.formula) gives ≡ true },
    pub ghost unobserved: { marks_of problem.observed ≡ replicate PART_COUNT false },
    pub ghost no_second: { problem.second ≡ [] },
}

/// The first line of a spec that is refused, counted from 1 over all lines, and why.
#[derive(Clone, Copy, Debug, PartialEq, Eq, Error)]
#[error("bad line {line}")]
pub struct SpecFault {
    pub line: u32,
    pub cause: ProblemCause,
}
