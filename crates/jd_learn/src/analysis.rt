//! What a conflict teaches: the first unique implication point and the earlier literals that lead
//! to the conflict with it, with hints that show the clause of their negations. `learning` makes a
//! line of these.
ghost use Rattle.std.specs.Prelude.{◌≡◌, ◌+◌, ◌<◌, ◌^◌, IfOk, MatchOption, OnOk, length, slice_index_or, pos};
ghost use Rattle.jd_logic.specs.Literals.{IsLiteral};
ghost use Rattle.jd_propagate.specs.Hints.{IsFalseBy};
ghost use Rattle.jd_propagate.specs.Passing.{clause_of};
ghost use Rattle.jd_propagate.specs.Reasons.{reason_at};
ghost use Rattle.jd_propagate.specs.declared.reason.Reason.TheVariants as because;
ghost use Rattle.jd_learn.specs.Learning.{IsLearning};
ghost use Rattle.jd_learn.specs.Taught.{IsAnalysed, IsTaught};

use crate::order::Order;
use jd_propagate::trail::{is_marked, key, negation};
use jd_propagate::{Clauses, NoMemory, Reason};
use jd_prover::Solver;
use jd_prover::explain::{id_of, is_needed, literal_at, mark_clause, push_hint, reason_of};
use std::alloc::Global;

/// Where the way back over the trail stands: the decisions, the literals met of the last decision's
/// that are still to be passed, and the place of the second literal that was kept.
#[derive(Clone, Copy)]
pub struct Front {
    pub level: u32,
    pub open: u32,
    pub second: usize,
}

/// The way back over the trail: marks for what is needed, the hints and the literals kept, both
/// last first.
#[derive(Drop)]
pub struct Analysis {
    pub marks: Vec<bool>,
    pub hints: Vec<i64>,
    pub kept: Vec<i32>,
    pub front: Front,
}

/// What a conflict teaches: true literals that lead to it, the unique implication point last, hints
/// for the clause of their negations, and the place in the trail of the last but one.
#[derive(Drop)]
pub struct Taught {
    pub kept: Vec<i32>,
    pub hints: Vec<i64>,
    pub second: usize,
}

/// Notes the literals of a clause on the way to the conflict.
fn meet_all(order: &mut Order, front: &mut Front, clause: &[i32]) {
    for l in clause {
        if order.meet(*l) && order.level(*l) == front.level {
            front.open = front.open.wrapping_add(1);
        }
    }
}

/// Whether a literal's own negation is needed, or was true before the first decision.
fn is_covered(order: &Order, marks: &[bool], l: i32) -> bool
    requires { IsLiteral l }
{
    order.level(l) == 0 || is_marked(marks, key(negation(l)))
}

/// How many clauses are gone through, one behind another, where it is asked whether a literal
/// follows: the longer the way, the more hints a line has.
const DEPTH: u32 = 5;

/// The watched clause that made a literal's variable true or false.
fn clause_behind(order: &Order, solver: &Solver, l: i32) -> Option<usize>
    ensures { MatchOption result (Unit {0}) (λ c. c < length solver.now.long) }
{
    let at = order.trail_place(l);
    if at >= solver.reasons.len() {
        return None;
    }
    let Reason::Clause(c) = solver.reasons[at] else {
        return None;
    };
    if c >= solver.long.len() {
        return None;
    }
    Some(c)
}

/// Whether a true literal follows from literals that are needed anyway, as far as clauses of a
/// given depth show.
fn follows(order: &mut Order, solver: &Solver, marks: &[bool], l: i32, depth: u32) -> bool {
    if let Some(found) = order.found(l) {
        return found;
    }
    if depth == 0 {
        return false;
    }
    let Some(c) = clause_behind(order, solver, l) else {
        return false;
    };
    for m in solver.long.clause(c) {
        if *m != l
            && !is_covered(order, marks, *m)
            && !follows(order, solver, marks, negation(*m), depth - 1)
        {
            order.note_found(l, false);
            return false;
        }
    }
    order.note_found(l, true);
    true
}

/// Counts a literal of the last decision's as passed.
fn count_passed(order: &Order, front: &mut Front, l: i32) {
    if order.level(l) == front.level {
        front.open = front.open.wrapping_sub(1);
    }
}

/// Whether a literal that was needed, and is passed, stays in the line: as the unique implication
/// point, or since an earlier decision made it true and it doesn't follow from others.
fn stays(order: &mut Order, solver: &Solver, front: Front, marks: &[bool], l: i32) -> bool {
    let level = order.level(l);
    if level == 0 {
        return false;
    }
    if level == front.level {
        return front.open == 0;
    }
    !follows(order, solver, marks, l, DEPTH)
}

/// Notes the place of the second literal that is kept.
fn note_kept(front: &mut Front, before: usize, at: usize) {
    if before == 1 {
        front.second = at;
    }
}

/// Keeps the literal at a place of the trail.
fn keep(
    _clauses: &Clauses,
    _solver: &Solver,
    analysis: &mut Analysis,
    l: i32,
    at: usize,
) -> Result<(), NoMemory>
    requires in_trail { at < length _solver.now.trail }
    requires same { l ≡ slice_index_or _solver.now.trail at (pos 0) }
    requires literal { IsLiteral l }
    requires analysed { IsAnalysed _clauses.now _solver.now analysis.old (at + 1) }
    ensures { OnOk result (IsAnalysed _clauses.now _solver.now analysis.new at) }
{
    note_kept(&mut analysis.front, analysis.kept.len(), at);
    analysis.kept.push(l)?;
    Ok(())
}

/// Puts the clause that gives the literal at a place of the trail before the hints.
fn resolve(
    _clauses: &Clauses,
    solver: &Solver,
    order: &mut Order,
    analysis: &mut Analysis,
    at: usize,
    clause: usize,
) -> Result<(), NoMemory>
    requires learning { IsLearning _clauses.now solver.now }
    requires small { length _clauses.now + length solver.now.lines.items < 2 ^ 61 }
    requires in_trail { at < length solver.now.trail }
    requires reason { reason_at solver.now.reasons.items at ≡ because.Clause clause }
    requires analysed { IsAnalysed _clauses.now solver.now analysis.old (at + 1) }
    ensures { OnOk result (IsAnalysed _clauses.now solver.now analysis.new at) }
{
    // For the fact that no literal of the trail stands beside its negation.
    let _literals = solver.trail.literals();
    let literals = solver.long.clause(clause);
    meet_all(order, &mut analysis.front, literals);
    mark_clause(&mut analysis.marks, literals)?;
    push_hint(&mut analysis.hints, id_of(solver, clause))?;
    Ok(())
}

/// Puts the clause of one literal that gives the literal at a place of the trail before the hints.
fn resolve_unit(
    _clauses: &Clauses,
    solver: &Solver,
    analysis: &mut Analysis,
    at: usize,
    id: u64,
) -> Result<(), NoMemory>
    requires learning { IsLearning _clauses.now solver.now }
    requires in_trail { at < length solver.now.trail }
    requires reason { reason_at solver.now.reasons.items at ≡ because.Line id }
    requires analysed { IsAnalysed _clauses.now solver.now analysis.old (at + 1) }
    ensures { OnOk result (IsAnalysed _clauses.now solver.now analysis.new at) }
{
    // For the fact that no literal of the trail stands beside its negation.
    let _literals = solver.trail.literals();
    push_hint(&mut analysis.hints, id)?;
    Ok(())
}

/// Passes a literal that is needed, at a place of the trail.
fn pass_needed(
    clauses: &Clauses,
    solver: &Solver,
    order: &mut Order,
    analysis: &mut Analysis,
    l: i32,
    at: usize,
) -> Result<(), NoMemory>
    requires learning { IsLearning clauses.now solver.now }
    requires small { length clauses.now + length solver.now.lines.items < 2 ^ 61 }
    requires in_trail { at < length solver.now.trail }
    requires same { l ≡ slice_index_or solver.now.trail at (pos 0) }
    requires literal { IsLiteral l }
    requires analysed { IsAnalysed clauses.now solver.now analysis.old (at + 1) }
    ensures { OnOk result (IsAnalysed clauses.now solver.now analysis.new at) }
{
    count_passed(order, &mut analysis.front, l);
    let marks = analysis.marks.as_slice();
    if stays(order, solver, analysis.front, marks, l) {
        return keep(clauses, solver, analysis, l, at);
    }
    match reason_of(solver, at) {
        Reason::Decision => keep(clauses, solver, analysis, l, at),
        Reason::Line(id) => resolve_unit(clauses, solver, analysis, at, id),
        Reason::Clause(c) => resolve(clauses, solver, order, analysis, at, c),
    }
}

/// Passes the literal at a place of the trail.
fn pass(
    clauses: &Clauses,
    solver: &Solver,
    order: &mut Order,
    analysis: &mut Analysis,
    at: usize,
) -> Result<(), NoMemory>
    requires learning { IsLearning clauses.now solver.now }
    requires small { length clauses.now + length solver.now.lines.items < 2 ^ 61 }
    requires in_trail { at < length solver.now.trail }
    requires analysed { IsAnalysed clauses.now solver.now analysis.old (at + 1) }
    ensures { OnOk result (IsAnalysed clauses.now solver.now analysis.new at) }
{
    let l = literal_at(solver, at);
    if !is_needed(analysis.marks.as_slice(), l) {
        return Ok(());
    }
    pass_needed(clauses, solver, order, analysis, l, at)
}

/// The way back over the trail begins at a false clause.
fn begin(
    alloc: Global,
    _clauses: &Clauses,
    solver: &Solver,
    order: &mut Order,
    level: u32,
    conflict: usize,
) -> Result<Analysis, NoMemory>
    requires learning { IsLearning _clauses.now solver.now }
    requires small { length _clauses.now + length solver.now.lines.items < 2 ^ 61 }
    requires in_clauses { conflict < length solver.now.long }
    requires conflict { IsFalseBy solver.now.trail (clause_of solver.now.long conflict) }
    ensures { IfOk result (λ a. IsAnalysed _clauses.now solver.now a (length solver.now.trail)) }
{
    let mut analysis = Analysis {
        marks: Vec::new(alloc),
        hints: Vec::new(alloc),
        kept: Vec::new(alloc),
        front: Front {
            level,
            open: 0,
            second: 0,
        },
    };
    let literals = solver.long.clause(conflict);
    meet_all(order, &mut analysis.front, literals);
    mark_clause(&mut analysis.marks, literals)?;
    push_hint(&mut analysis.hints, id_of(solver, conflict))?;
    Ok(analysis)
}

/// What the watched clause at a place teaches, all of whose literals are false.
pub fn analyse(
    alloc: Global,
    clauses: &Clauses,
    solver: &Solver,
    order: &mut Order,
    level: u32,
    conflict: usize,
) -> Result<Taught, NoMemory>
    requires learning { IsLearning clauses.now solver.now }
    requires small { length clauses.now + length solver.now.lines.items < 2 ^ 61 }
    requires in_clauses { conflict < length solver.now.long }
    requires conflict { IsFalseBy solver.now.trail (clause_of solver.now.long conflict) }
    ensures { IfOk result (λ t. IsTaught clauses.now solver.now t) }
{
    order.begin_conflict();
    let mut analysis = begin(alloc, clauses, solver, order, level, conflict)?;
    let mut at = solver.trail.len();
    'trail: while at > 0 {
        at -= 1;
        pass(clauses, solver, order, &mut analysis, at)?;
    }
    order.end_conflict();
    let Analysis {
        mut kept,
        mut hints,
        front,
        marks: _,
    } = analysis;
    kept.reverse();
    hints.reverse();
    Ok(Taught {
        kept,
        hints,
        second: front.second,
    })
}
