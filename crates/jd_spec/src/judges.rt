//! The judge of a spec is the judge of pairs, of another claim.
ghost use Rattle.std.specs.Prelude.{IfOk};
ghost use Rattle.jd_problem.specs.Problems.{problem_of};
ghost use Rattle.jd_judge.specs.Judging.{IsJudgedTo};
ghost use Rattle.jd_gives.specs.Gives.{meets};

use crate::differences::Unmet;
use hp_io::NoMemory;
use jd_judge::{Judged, NoDifference, judge_claim};
use jd_rules::RuleSet;
use jd_spec_texts::Spec;
use std::alloc::Global;

/// Judges whether the routine meets the spec from each allowed start.
pub fn specify(alloc: Global, spec: &Spec, rules: &RuleSet) -> Result<Judged, NoMemory>
    ensures { IfOk result (IsJudgedTo (problem_of spec.now.problem) (meets (problem_of spec.now.problem) spec.now.gives)) }
{
    let claim = NoDifference {
        problem: &spec.problem,
        difference: &Unmet { spec },
    };
    let judged = judge_claim(alloc, &spec.problem, &claim, rules)?;
    Ok(judged)
}
