//! The judge itself: it begins a walk at the empty path and takes one step after another until a
//! step has the answer. What a step may do is `steps`'; this file relies on its clause alone.
ghost use Rattle.std.specs.Prelude.{IfOk};
ghost use Rattle.jd_problem.specs.Problems.{problem_of};
ghost use Rattle.jd_judge.specs.Judging.{IsJudged, IsJudgedTo};

use crate::claims::{Agreement, Claim};
use crate::outcomes::{Judged, Judging, Step};
use crate::starts::Starts;
use crate::steps::step;
use hp_io::NoMemory;
use jd_problem::Problem;
use jd_rules::RuleSet;
use jd_walk::{Book, Walk};
use std::alloc::Global;

/// Judges a claim of a problem: walks all paths to which an allowed start comes, a cut standing where
/// none does.
pub fn judge_claim<C: Claim>(
    alloc: Global,
    problem: &Problem,
    claim: &C,
    rules: &RuleSet,
) -> Result<Judged, NoMemory>
    requires { C.is_of claim.now (problem_of problem.now) }
    ensures { IfOk result (IsJudgedTo (problem_of problem.now) (C.holds claim.now)) }
{
    // The blocks say that the problem is in its ranges.
    let _ = problem.blocks();
    let mut judging = Judging {
        walk: Walk::new(alloc, problem, rules)?,
        book: Book::new(alloc),
        nodes: Vec::new(alloc),
        starts: Starts::new(alloc),
        witness: None,
    };
    // 2^64 turns never pass: the bound stands in for a measure.
    'places: for _ in 0..u64::MAX {
        match step(alloc, problem, claim, judging)? {
            Step::Go(next) => judging = next,
            Step::Over(judged) => return Ok(judged),
        }
    }
    Err(NoMemory)
}

/// Judges whether both routines of a problem agree.
pub fn judge(alloc: Global, problem: &Problem, rules: &RuleSet) -> Result<Judged, NoMemory>
    ensures { IfOk result (IsJudged (problem_of problem.now)) }
{
    let claim = Agreement { problem };
    let judged = judge_claim(alloc, problem, &claim, rules)?;
    Ok(judged)
}
