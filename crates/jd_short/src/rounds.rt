//! The shortening itself. In each round the candidates of a routine are judged, and the first that
//! agrees begins the next round. A replacement makes a routine shorter, so the rounds end. In the last
//! one every candidate was refused.
//!
//! A replacement leaves the pieces before it as they were, and most of what was refused there is
//! refused again. So a round begins with the pieces from the last replacement on, and comes to those
//! before it last.
ghost use Rattle.std.specs.Prelude.{◌≡◌, ◌++◌, IfOk, All};
ghost use Rattle.jd_problem.specs.Problems.{problem_of};
ghost use Rattle.jd_pieces.specs.Candidates.{candidates, IsCandidate};
ghost use Rattle.jd_short.specs.Shortened.{IsAgreed, IsShortened, IsRound};

use crate::judgements::agreed;
use crate::refusals::{Refusal, Refusals};
use crate::shortenings::Agreed;
use hp_asm::Routine;
use hp_io::NoMemory;
use jd_cert::Cert;
use jd_judge::{Book, Judged};
use jd_pieces::{Candidate, candidates, put};
use jd_problem::Problem;
use jd_rules::RuleSet;
use jd_start::Start;
use std::alloc::Global;

/// What comes of a shortening.
#[derive(Drop)]
pub enum Shortened {
    /// A routine that came by replacements and agrees with the source, the certificate of it, and why
    /// no further piece was replaced.
    Done {
        routine: Routine,
        book: Book,
        cert: Cert,
        refusals: Refusals,
    },
    /// The judge doesn't say that the source agrees with itself.
    Not(Judged),
}

/// What comes of judging some candidates of a routine.
#[derive(Drop)]
pub enum Round {
    /// A shorter routine agrees, with the piece of this candidate replaced, counted from 0.
    Shorter(Agreed, usize),
    /// No candidate does.
    Over(Refusals),
}

/// Judges some candidates of a routine in order, up to the first that agrees.
fn judge_candidates(
    alloc: Global,
    problem: &Problem,
    routine: &Routine,
    found: &[Candidate],
    known: &mut Vec<Start>,
    rules: &RuleSet,
) -> Result<Round, NoMemory>
    requires { All (IsCandidate routine.now) found.now }
    ensures { IfOk result (IsRound (problem_of problem.now) routine.now found.now) }
{
    let mut refusals = Refusals::new(alloc);
    for candidate in found {
        match agreed(alloc, problem, put(routine, *candidate), known, rules)? {
            Ok(agreed) => return Ok(Round::Shorter(agreed, refusals.len())),
            Err(answer) => refusals.push(Refusal {
                place: candidate.place,
                row: candidate.row,
                answer,
            })?,
        }
    }
    Ok(Round::Over(refusals))
}

/// Judges all candidates of a routine: those from one on, and then those before it.
fn judge_from(
    alloc: Global,
    problem: &Problem,
    routine: &Routine,
    from: usize,
    known: &mut Vec<Start>,
    rules: &RuleSet,
) -> Result<Round, NoMemory>
    ensures { IfOk result (IsRound (problem_of problem.now) routine.now (candidates routine.now)) }
{
    let found = candidates(alloc, routine)?;
    let from = from.min(found.len());
    let later = match judge_candidates(alloc, problem, routine, &found[from..], known, rules)? {
        Round::Over(refusals) => refusals,
        Round::Shorter(next, index) => return Ok(Round::Shorter(next, from.saturating_add(index))),
    };
    match judge_candidates(alloc, problem, routine, &found[..from], known, rules)? {
        Round::Over(refusals) => Ok(Round::Over(refusals.followed_by(later)?)),
        Round::Shorter(next, index) => Ok(Round::Shorter(next, index)),
    }
}

/// Goes on from a routine that agrees, until no candidate does.
fn shorten_on(
    alloc: Global,
    problem: &Problem,
    agreed: Agreed,
    known: &mut Vec<Start>,
    rules: &RuleSet,
) -> Result<Shortened, NoMemory>
    requires { IsAgreed (problem_of problem.now) agreed }
    ensures { IfOk result (IsShortened (problem_of problem.now)) }
{
    let mut agreed = agreed;
    let mut from = 0;
    'rounds: loop {
        match judge_from(alloc, problem, &agreed.routine, from, known, rules)? {
            Round::Shorter(next, index) => {
                agreed = next;
                // The piece before the replaced one may be another now.
                from = index.saturating_sub(1);
            }
            Round::Over(refusals) => {
                let Agreed {
                    routine,
                    book,
                    cert,
                } = agreed;
                return Ok(Shortened::Done {
                    routine,
                    book,
                    cert,
                    refusals,
                });
            }
        }
    }
}

/// Replaces pieces of a problem's first routine as long as the judge shows that it agrees with the
/// source. The problem's second routine plays no part. It takes memory for the walks, the certificates
/// and their leaves.
pub fn shorten(alloc: Global, problem: &Problem, rules: &RuleSet) -> Result<Shortened, NoMemory>
    ensures { IfOk result (IsShortened (problem_of problem.now)) }
{
    let mut known = Vec::new(alloc);
    match agreed(alloc, problem, problem.first.copy(), &mut known, rules)? {
        Ok(source) => {
            let shortened = shorten_on(alloc, problem, source, &mut known, rules)?;
            Ok(shortened)
        }
        Err(judged) => Ok(Shortened::Not(judged)),
    }
}
