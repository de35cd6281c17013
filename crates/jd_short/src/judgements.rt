//! Whether a routine agrees with the source. A start that told another routine apart is tried before
//! the judge is asked.
ghost use Rattle.std.specs.Prelude.{◌≡◌, false, IfOk, IfErr};
ghost use Rattle.jd_model.specs.Seen.{agree};
ghost use Rattle.jd_problem.specs.Problems.{problem_of};
ghost use Rattle.jd_judge.specs.Judging.{IsJudged, IsEqual};
ghost use Rattle.jd_judge.specs.Laws.{is_equal};
ghost use Rattle.jd_short.specs.Pairs.{pair};

use crate::differences::{copy_of, first_difference};
use crate::pairs::paired;
use crate::shortenings::Agreed;
use hp_asm::Routine;
use hp_io::NoMemory;
use jd_judge::{Judged, judge};
use jd_problem::Problem;
use jd_rules::RuleSet;
use jd_start::Start;
use std::alloc::Global;

/// What the judge says of a problem. It isn't asked where a known start tells the routines apart. A
/// start that it finds is known from then on.
fn judged(
    alloc: Global,
    problem: &Problem,
    known: &mut Vec<Start>,
    rules: &RuleSet,
) -> Result<Judged, NoMemory>
    ensures { IfOk result (IsJudged (problem_of problem.now)) }
{
    if let Some(start) = first_difference(problem, known) {
        return Ok(Judged::Different(start));
    }
    let judged = judge(alloc, problem, rules)?;
    if let Judged::Different(start) = &judged {
        known.push(copy_of(start))?;
    }
    Ok(judged)
}

/// A certificate that a routine agrees with the source, or the judge's other answer.
pub fn agreed(
    alloc: Global,
    problem: &Problem,
    routine: Routine,
    known: &mut Vec<Start>,
    rules: &RuleSet,
) -> Result<Result<Agreed, Judged>, NoMemory>
    ensures routine { IfOk result (λ found. IfOk found (λ agreed. agreed.routine ≡ routine)) }
    ensures equal { IfOk result (λ found. IfOk found
        (λ agreed. IsEqual (pair (problem_of problem.now) routine) (agree (pair (problem_of problem.now) routine)) agreed.book agreed.cert)) }
    ensures other { IfOk result (λ found. IfErr found (λ judged. is_equal judged ≡ false)) }
    ensures judged { IfOk result (λ found. IfErr found
        (λ judged. IsJudged (pair (problem_of problem.now) routine) judged)) }
{
    match judged(alloc, &paired(problem, &routine), known, rules)? {
        Judged::Equal(book, cert) => Ok(Ok(Agreed {
            routine,
            book,
            cert,
        })),
        Judged::Different(start) => Ok(Err(Judged::Different(start))),
        Judged::Unknown(leaf, log) => Ok(Err(Judged::Unknown(leaf, log))),
        Judged::TooManyPaths(starts) => Ok(Err(Judged::TooManyPaths(starts))),
    }
}
