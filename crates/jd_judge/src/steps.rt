//! The judge's steps: at a path that was just entered, at a question, and at the end of both runs.
//! They ask the prover of each leaf and cut, add a node where it is refuted, and leave the walk at
//! the next path.
ghost use Rattle.std.specs.Prelude.{◌≡◌, ◌≢◌, ◌<◌, ◌≤◌, ◌↔◌, [], length, true, Some, IfOk, IsTrue, OnOk};
ghost use Rattle.jd_model.specs.Problems.{Problem as ProblemOf, IsProblem, free_bits, start_of};
ghost use Rattle.jd_problem.specs.Problems.{problem_of};
ghost use Rattle.jd_start.specs.Starts.{start_data};
ghost use Rattle.jd_books.specs.Leaves.{Claim as ClaimOf, clauses_of};
ghost use Rattle.jd_books.specs.Paths.{AsksAfter, OverAfter};
ghost use Rattle.jd_leaves.specs.Views.{leaf_of};
ghost use Rattle.jd_propagate.specs.Answers.{IsAnswer};
ghost use Rattle.jd_walk.specs.Walked.{has_asked, is_done};
ghost use Rattle.jd_judge.specs.Judging.{IsJudging, IsJudgingAt, IsOwn, IsStep, with_start};

use crate::claims::Claim;
use crate::outcomes::{Judged, Judging, Step};
use crate::starts::Starts;
use hp_io::NoMemory;
use jd_cert::node;
use jd_learn::{Proof, prove};
use jd_problem::Problem;
use jd_start::{Bits as FreeBits, Start};
use jd_trees::Node;
use jd_walk::{Kind, Leaf, Next};
use std::alloc::Global;

/// What the prover answers to a leaf's clauses.
fn ask(alloc: Global, problem: &Problem, leaf: &Leaf) -> Result<Proof, NoMemory>
    ensures { IfOk result (IsAnswer (clauses_of (leaf_of leaf.now)) leaf.now.inputs problem.now.budget) }
{
    let clauses = leaf.clauses(alloc)?;
    let proof = prove(alloc, &clauses, leaf.inputs, problem.budget)?;
    Ok(proof)
}

/// The start that has these free bits.
fn start_with(problem: &Problem, bits: &[bool]) -> Start
    requires { length bits.now ≡ free_bits (problem_of problem.now) }
    ensures { start_data result ≡ start_of (problem_of problem.now) bits.now }
{
    let count = problem.free_bits() as usize;
    let mut free = FreeBits::new();
    for i in 0..count {
        free.push(bits[i]);
    }
    problem.start_of(&free)
}

/// Looks for a start that comes to the path that was just entered. Where none does, a cut stands
/// there, and the walk goes back to the next path; where there is no next path, the tree is whole.
fn enter<'r, C: Claim>(
    alloc: Global,
    problem: &Problem,
    claim: &C,
    judging: Judging<'r>,
) -> Result<Step<'r>, NoMemory>
    requires claim { C.is_of claim.now (problem_of problem.now) }
    requires path { judging.walk.path ≢ [] }
    requires ranges { IsProblem (problem_of problem.now) }
    requires placed { IsJudgingAt (problem_of problem.now) (C.holds claim.now) judging }
    ensures { IfOk result (IsStep (problem_of problem.now) (C.holds claim.now)) }
{
    let mut judging = judging;
    // 2^64 turns never pass: the bound stands in for a measure.
    'places: for _ in 0..u64::MAX {
        let leaf = judging.walk.leaf(Kind::Cut)?;
        match ask(alloc, problem, &leaf)? {
            Proof::Model(bits) => {
                judging.witness = Some(start_with(problem, bits.as_slice()));
                return Ok(Step::Go(judging));
            }
            Proof::Unknown(log) => return Ok(Step::Over(Judged::Unknown(leaf, log))),
            Proof::Refuted(log) => {
                judging.nodes.push(node(Kind::Cut, log))?;
                judging.book.push(leaf)?;
                if !judging.walk.back() {
                    return Ok(Step::Over(judging.into_equal()));
                }
            }
        }
    }
    Err(NoMemory)
}

/// Answers a question with no, and enters that path.
fn at_question<'r, C: Claim>(
    alloc: Global,
    problem: &Problem,
    claim: &C,
    judging: Judging<'r>,
) -> Result<Step<'r>, NoMemory>
    requires claim { C.is_of claim.now (problem_of problem.now) }
    requires asked { has_asked judging.walk.next ≡ true }
    requires asks { AsksAfter (problem_of problem.now) judging.walk.path }
    requires ranges { IsProblem (problem_of problem.now) }
    requires placed { IsJudgingAt (problem_of problem.now) (C.holds claim.now) judging }
    ensures { IfOk result (IsStep (problem_of problem.now) (C.holds claim.now)) }
{
    let mut judging = judging;
    judging.nodes.push(Node::Fork)?;
    judging.walk.answer(false)?;
    let step = enter(alloc, problem, claim, judging)?;
    Ok(step)
}

/// Keeps the start of a leaf, if it has one.
fn keep(starts: &mut Starts, start: Option<Start>) -> Result<(), NoMemory>
    ensures { OnOk result (starts.new ≡ with_start starts.old start) }
{
    match start {
        Some(start) => {
            starts.push(start)?;
            Ok(())
        }
        None => Ok(()),
    }
}

/// Decides the leaf at the end of both runs, to which a start of its own comes, and enters the next
/// path.
fn decide<'r, C: Claim>(
    alloc: Global,
    problem: &Problem,
    claim: &C,
    judging: Judging<'r>,
    start: Option<Start>,
) -> Result<Step<'r>, NoMemory>
    requires claim { C.is_of claim.now (problem_of problem.now) }
    requires done { is_done judging.walk.next ≡ true }
    requires over { OverAfter (problem_of problem.now) judging.walk.path }
    requires ranges { IsProblem (problem_of problem.now) }
    requires placed { IsJudgingAt (problem_of problem.now) (C.holds claim.now) judging }
    requires own { IsOwn (problem_of problem.now) judging.walk.path start }
    requires room { length judging.starts < problem.now.paths }
    ensures { IfOk result (IsStep (problem_of problem.now) (C.holds claim.now)) }
{
    let mut judging = judging;
    let leaf = claim.whole_leaf(alloc, &mut judging.walk)?;
    match ask(alloc, problem, &leaf)? {
        Proof::Model(bits) => Ok(Step::Over(Judged::Different(start_with(
            problem,
            bits.as_slice(),
        )))),
        Proof::Unknown(log) => Ok(Step::Over(Judged::Unknown(leaf, log))),
        Proof::Refuted(log) => {
            judging.nodes.push(node(Kind::Whole, log))?;
            judging.book.push(leaf)?;
            keep(&mut judging.starts, start)?;
            if !judging.walk.back() {
                return Ok(Step::Over(judging.into_equal()));
            }
            let step = enter(alloc, problem, claim, judging)?;
            Ok(step)
        }
    }
}

/// One start more than the problem has paths.
fn too_many<'r>(judging: Judging<'r>, start: Start) -> Result<Step<'r>, NoMemory>
    ensures { IfOk result (λ step. (p : ProblemOf) (claim : ClaimOf) → IsJudgingAt p claim judging.entry → OverAfter p judging.entry.walk.path → IsOwn p judging.entry.walk.path (Some start)
        → length judging.entry.starts ≡ p.paths → IsStep p claim step) }
{
    let mut starts = judging.into_starts();
    starts.push(start)?;
    Ok(Step::Over(Judged::TooManyPaths(starts)))
}

/// Whether there are as many starts as the problem has paths.
fn is_full(starts: &Starts, problem: &Problem) -> bool
    ensures { IsTrue result ↔ (problem.now.paths ≤ length starts.now) }
{
    starts.len() as u64 >= u64::from(problem.paths)
}

/// Decides the leaf at the end of both runs, unless its start is one too many.
fn at_end<'r, C: Claim>(
    alloc: Global,
    problem: &Problem,
    claim: &C,
    judging: Judging<'r>,
) -> Result<Step<'r>, NoMemory>
    requires claim { C.is_of claim.now (problem_of problem.now) }
    requires done { is_done judging.walk.next ≡ true }
    requires over { OverAfter (problem_of problem.now) judging.walk.path }
    requires ranges { IsProblem (problem_of problem.now) }
    requires judging { IsJudging (problem_of problem.now) (C.holds claim.now) judging }
    ensures { IfOk result (IsStep (problem_of problem.now) (C.holds claim.now)) }
{
    let mut judging = judging;
    match judging.witness.take() {
        None => {
            let step = decide(alloc, problem, claim, judging, None)?;
            Ok(step)
        }
        Some(start) => {
            if is_full(&judging.starts, problem) {
                let step = too_many(judging, start)?;
                return Ok(step);
            }
            let step = decide(alloc, problem, claim, judging, Some(start))?;
            Ok(step)
        }
    }
}

/// Goes on from a path to which a start comes, or from the empty path.
pub fn step<'r, C: Claim>(
    alloc: Global,
    problem: &Problem,
    claim: &C,
    judging: Judging<'r>,
) -> Result<Step<'r>, NoMemory>
    requires claim { C.is_of claim.now (problem_of problem.now) }
    requires ranges { IsProblem (problem_of problem.now) }
    requires judging { IsJudging (problem_of problem.now) (C.holds claim.now) judging }
    ensures { IfOk result (IsStep (problem_of problem.now) (C.holds claim.now)) }
{
    let mut judging = judging;
    match judging.walk.next()? {
        Next::Ask(_) => {
            let step = at_question(alloc, problem, claim, judging)?;
            Ok(step)
        }
        Next::Done(_) => {
            let step = at_end(alloc, problem, claim, judging)?;
            Ok(step)
        }
    }
}
