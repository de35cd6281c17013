//! The way back from a conflict, and what it taught as a line, which is watched as one more clause
//! or is a single literal. It's looked at first whether the line gives something, since it must be
//! new.
ghost use Rattle.std.specs.Prelude.{◌≡◌, ◌⊎◌, ℕ, ◌+◌, ◌-◌, ◌<◌, ◌^◌, ℤ, neg_ℤ, [], ◌∷◌, false, MatchBool, IfOk, OnOk, length, take, slice_index};
ghost use Rattle.jd_logic.specs.Literals.{IsLiteral, AreLiterals, AreHints, has};
ghost use Rattle.jd_proving.specs.Propagation.{has_value};
ghost use Rattle.jd_propagate.specs.Quiet.{IsIn, IsWithin};
ghost use Rattle.jd_propagate.specs.Levels.{negated};
ghost use Rattle.jd_propagate.specs.Watched.{IsPair};
ghost use Rattle.jd_prover.specs.Solving.{IsRight};
ghost use Rattle.jd_learn.specs.Learning.{IsBegun, IsLearning, IsQuietSearch};
ghost use Rattle.jd_learn.specs.Taught.{IsTaught};
ghost use Rattle.jd_learn.specs.Teaching.{IsGiving, IsLate, IsNextLine, IsTaughtTo};

use crate::analysis::Taught;
use crate::order::Order;
use jd_propagate::attach::watch;
use jd_propagate::{Clause, Clauses, Hints, Line, NoMemory, Reason, Trail};
use jd_prover::{Solver, make_true, negations};
use std::alloc::Global;

/// Takes back all decisions but so many.
pub fn cut(
    _clauses: &Clauses,
    solver: &mut Solver,
    order: &mut Order,
    level: usize,
) -> Result<(), NoMemory>
    requires learning { IsLearning _clauses.now solver.old }
    requires level { level < length solver.old.limits.items }
    ensures quiet { OnOk result (IsQuietSearch _clauses.now solver.new) }
    ensures lines { solver.new.lines.items ≡ solver.old.lines.items }
{
    let limit = solver.limits[level];
    order.take_back(&solver.trail.literals()[limit..])?;
    solver.limits.truncate(level);
    solver.trail.cut(limit);
    solver.reasons.truncate(limit);
    Ok(())
}

/// Whether all literals are true.
fn are_true(trail: &Trail, literals: &[i32]) -> bool
    requires { AreLiterals literals.now }
    ensures { MatchBool result (IsWithin literals.now trail.now) (Unit {0}) }
{
    for l in literals {
        if !trail.has(*l) {
            return false;
        }
    }
    true
}

/// Whether taught literals are true still, but for the last, which has no value.
fn is_giving(trail: &Trail, kept: &[i32]) -> bool
    requires { AreLiterals kept.now }
    ensures { MatchBool result (IsGiving trail.now kept.now) (Unit {0}) }
{
    let count = kept.len();
    if count == 0 || !are_true(trail, &kept[..count - 1]) {
        return false;
    }
    if trail.has_value(kept[count - 1]) {
        return false;
    }
    true
}

/// Whether a literal became true at a place of the trail, after the last decision.
fn is_late(solver: &Solver, l: i32, place: usize) -> bool
    ensures { MatchBool result (IsLate solver.now l place) (Unit {0}) }
{
    let count = solver.limits.len();
    if count > 0 && solver.limits[count - 1] > place {
        return false;
    }
    if place >= solver.trail.len() || solver.trail.literals()[place] != l {
        return false;
    }
    true
}

/// The line of taught literals.
fn taught_line(
    _clauses: &Clauses,
    _solver: &Solver,
    clause: Vec<i32>,
    _kept: &[i32],
    hints: Vec<i64>,
    id: u64,
) -> Line
    requires quiet { IsQuietSearch _clauses.now _solver.now }
    requires giving { IsGiving _solver.now.trail _kept.now }
    requires clause { clause.items ≡ negated _kept.now }
    requires literals { AreLiterals clause.items }
    requires hints { AreHints hints.items }
    requires right { IsRight _clauses.now _solver.now.lines.items (negated _kept.now) hints.items }
    requires next { id ≡ length _clauses.now + length _solver.now.lines.items + 1 }
    requires small { id < 2 ^ 62 }
    ensures { IsNextLine _clauses.now _solver.now result (negated _kept.now) id }
{
    // For the fact that no literal of the trail stands beside its negation.
    let _literals = _solver.trail.literals();
    Line::Derive {
        id,
        clause: Clause::new(clause),
        hints: Hints::new(hints),
    }
}

/// Adds a line of one literal, and makes that true.
fn add_unit(
    _clauses: &Clauses,
    solver: &mut Solver,
    l: i32,
    line: Line,
    id: u64,
) -> Result<(), NoMemory>
    requires quiet { IsQuietSearch _clauses.now solver.old }
    requires line { IsNextLine _clauses.now solver.old line (l ∷ []) id }
    requires literal { IsLiteral l }
    requires open { has_value solver.old.trail l ≡ false }
    requires first { length solver.old.limits.items ≡ 0 }
    ensures begun { OnOk result (IsBegun _clauses.now solver.new (length solver.new.trail - 1)) }
    ensures lines { OnOk result (length solver.new.lines.items ≡ length solver.old.lines.items + 1) }
    ensures some { OnOk result (0 < length solver.new.trail) }
{
    make_true(&mut solver.trail, &mut solver.reasons, l, Reason::Line(id))?;
    solver.lines.push(line)?;
    Ok(())
}

/// Adds a line of more literals, watches two of them, and makes the first of these true.
fn add_watched(
    alloc: Global,
    _clauses: &Clauses,
    solver: &mut Solver,
    clause: &[i32],
    first: i32,
    second: i32,
    line: Line,
    id: u64,
) -> Result<(), NoMemory>
    requires quiet { IsQuietSearch _clauses.now solver.old }
    requires line { IsNextLine _clauses.now solver.old line clause.now id }
    requires literals { AreLiterals clause.now }
    requires pair { IsPair clause.now first second }
    requires literal { IsLiteral first }
    requires open { has_value solver.old.trail first ≡ false }
    requires others { (m : ℤ) → IsIn clause.now m → (m ≡ first) ⊎ IsIn solver.old.trail (neg_ℤ m) }
    requires late { (j : ℕ) → j < length solver.old.limits.items → has (take (slice_index solver.old.limits.items j) solver.old.trail) (neg_ℤ second) ≡ false }
    ensures begun { OnOk result (IsBegun _clauses.now solver.new (length solver.new.trail - 1)) }
    ensures lines { OnOk result (length solver.new.lines.items ≡ length solver.old.lines.items + 1) }
    ensures some { OnOk result (0 < length solver.new.trail) }
{
    let at = solver.long.len();
    watch(
        alloc,
        &mut solver.long,
        &mut solver.firsts,
        &mut solver.seconds,
        &mut solver.lists,
        clause,
        first,
        second,
    )?;
    solver.origins.push(id as usize - 1)?;
    make_true(
        &mut solver.trail,
        &mut solver.reasons,
        first,
        Reason::Clause(at),
    )?;
    solver.lines.push(line)?;
    Ok(())
}

/// Adds one literal that a conflict taught, where no decision stands.
fn teach_unit(
    alloc: Global,
    clauses: &Clauses,
    solver: &mut Solver,
    taught: Taught,
) -> Result<bool, NoMemory>
    requires quiet { IsQuietSearch clauses.now solver.old }
    requires taught { IsTaught clauses.now solver.old taught }
    requires small { length clauses.now + length solver.old.lines.items < 2 ^ 61 }
    requires giving { IsGiving solver.old.trail taught.kept.items }
    requires one { length taught.kept.items ≡ 1 }
    ensures { IfOk result (λ done. IsTaughtTo clauses.now (length solver.old.lines.items) solver.new done) }
{
    if !solver.limits.is_empty() {
        return Ok(false);
    }
    let Taught {
        kept,
        hints,
        second: _,
    } = taught;
    let id = clauses.len() as u64 + solver.lines.len() as u64 + 1;
    let literals = negations(alloc, kept.as_slice())?;
    let last = literals[0];
    let line = taught_line(clauses, solver, literals, kept.as_slice(), hints, id);
    add_unit(clauses, solver, last, line, id)?;
    Ok(true)
}

/// Adds a clause of more literals that a conflict taught, where the last but one became true after
/// the last decision.
fn teach_watched(
    alloc: Global,
    clauses: &Clauses,
    solver: &mut Solver,
    taught: Taught,
) -> Result<bool, NoMemory>
    requires quiet { IsQuietSearch clauses.now solver.old }
    requires taught { IsTaught clauses.now solver.old taught }
    requires small { length clauses.now + length solver.old.lines.items < 2 ^ 61 }
    requires giving { IsGiving solver.old.trail taught.kept.items }
    requires more { 1 < length taught.kept.items }
    ensures { IfOk result (λ done. IsTaughtTo clauses.now (length solver.old.lines.items) solver.new done) }
{
    let Taught {
        kept,
        hints,
        second,
    } = taught;
    // For the fact that no literal of the trail stands beside its negation.
    let _literals = solver.trail.literals();
    let count = kept.len();
    if !is_late(solver, kept[count - 2], second) {
        return Ok(false);
    }
    let id = clauses.len() as u64 + solver.lines.len() as u64 + 1;
    let literals = negations(alloc, kept.as_slice())?;
    let clause = negations(alloc, kept.as_slice())?;
    let line = taught_line(clauses, solver, clause, kept.as_slice(), hints, id);
    let last = literals[count - 1];
    let earlier = literals[count - 2];
    add_watched(
        alloc,
        clauses,
        solver,
        literals.as_slice(),
        last,
        earlier,
        line,
        id,
    )?;
    Ok(true)
}

/// Adds what a conflict taught, once the way back was gone; false where it gives nothing.
pub fn teach(
    alloc: Global,
    clauses: &Clauses,
    solver: &mut Solver,
    taught: Taught,
) -> Result<bool, NoMemory>
    requires quiet { IsQuietSearch clauses.now solver.old }
    requires taught { IsTaught clauses.now solver.old taught }
    requires small { length clauses.now + length solver.old.lines.items < 2 ^ 61 }
    ensures { IfOk result (λ done. IsTaughtTo clauses.now (length solver.old.lines.items) solver.new done) }
{
    if !is_giving(&solver.trail, taught.kept.as_slice()) {
        return Ok(false);
    }
    if taught.kept.len() == 1 {
        return teach_unit(alloc, clauses, solver, taught);
    }
    teach_watched(alloc, clauses, solver, taught)
}
