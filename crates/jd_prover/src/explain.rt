//! Hints that lead from the decisions to a conflict, found from the end of the trail backwards by
//! reasons, so that what the conflict doesn't rest on is left out. The learning search takes the
//! same steps.
ghost use Rattle.std.specs.Prelude.{◌≡◌, ◌+◌, ◌<◌, ◌^◌, ℕ, ℤ, pos, neg_ℤ, true, false, IfOk, OnOk, length, ◌++◌, ◌∷◌, [], slice_index, slice_index_or};
ghost use Rattle.jd_logic.specs.Literals.{IsLiteral, AreLiterals, AreHints};
ghost use Rattle.jd_propagate.specs.Quiet.{IsIn};
ghost use Rattle.jd_propagate.specs.Hints.{IsFalseBy, LeadsToConflict};
ghost use Rattle.jd_propagate.specs.Passing.{clause_of};
ghost use Rattle.jd_propagate.specs.Reasons.{reason_at};
ghost use Rattle.jd_propagate.specs.Trails.{key_of, IsTrail};
ghost use Rattle.jd_prover.specs.Solving.{AreKnown, IsExplained, store_of};

use crate::Solver;
use jd_propagate::trail::{is_marked, key, make_room, negation};
use jd_propagate::{Clauses, NoMemory, Reason};
use std::alloc::Global;

/// Marks a key.
fn mark_key(marks: &mut Vec<bool>, key: usize) -> Result<(), NoMemory>
    requires { key < 2 ^ 40 }
    ensures kept { (k : ℕ) → slice_index_or marks.old.items k false ≡ true → slice_index_or marks.new.items k false ≡ true }
    ensures marked { OnOk result (slice_index_or marks.new.items key false ≡ true) }
{
    make_room(marks, key)?;
    marks[key] = true;
    Ok(())
}

/// Marks the negation of a literal.
fn mark(marks: &mut Vec<bool>, l: i32) -> Result<(), NoMemory>
    requires { IsLiteral l }
    ensures kept { (k : ℕ) → slice_index_or marks.old.items k false ≡ true → slice_index_or marks.new.items k false ≡ true }
    ensures marked { OnOk result (slice_index_or marks.new.items (key_of (neg_ℤ l)) false ≡ true) }
{
    mark_key(marks, key(negation(l)))
}

/// Marks the negations of a clause's literals.
pub fn mark_clause(marks: &mut Vec<bool>, clause: &[i32]) -> Result<(), NoMemory>
    requires { AreLiterals clause.now }
    ensures kept { (k : ℕ) → slice_index_or marks.old.items k false ≡ true → slice_index_or marks.new.items k false ≡ true }
    ensures marked { OnOk result ((l : ℤ) → IsIn clause.now l → slice_index_or marks.new.items (key_of (neg_ℤ l)) false ≡ true) }
{
    for l in clause {
        mark(marks, *l)?;
    }
    Ok(())
}

/// The hint for an id.
fn hint_of(id: u64) -> i64
    requires { id < 2 ^ 62 }
    ensures { result ≡ pos id }
{
    id as i64
}

/// Puts the hint for an id at the end.
pub fn push_hint(hints: &mut Vec<i64>, id: u64) -> Result<(), NoMemory>
    requires { id < 2 ^ 62 }
    ensures { OnOk result (hints.new.items ≡ hints.old.items ++ pos id ∷ []) }
{
    hints.push(hint_of(id))?;
    Ok(())
}

/// The literal at a place of the trail.
pub fn literal_at(solver: &Solver, at: usize) -> i32
    requires { at < length solver.now.trail }
    ensures same { result ≡ slice_index_or solver.now.trail at (pos 0) }
    ensures literal { IsLiteral result }
    ensures orderly { IsTrail solver.now.trail }
{
    solver.trail.literals()[at]
}

/// Why the literal at a place of the trail is true.
pub fn reason_of(solver: &Solver, at: usize) -> Reason
    requires { at < length solver.now.reasons.items }
    ensures { result ≡ reason_at solver.now.reasons.items at }
{
    solver.reasons[at]
}

/// The id of a watched clause.
pub fn id_of(solver: &Solver, clause: usize) -> u64
    requires within { clause < length solver.now.origins.items }
    requires small { slice_index solver.now.origins.items clause < 2 ^ 61 }
    ensures { result ≡ slice_index solver.now.origins.items clause + 1 }
{
    solver.origins[clause] as u64 + 1
}

/// Whether a literal is marked.
pub fn is_needed(marks: &[bool], l: i32) -> bool
    requires { IsLiteral l }
    ensures { result ≡ slice_index_or marks.now (key_of l) false }
{
    is_marked(marks, key(l))
}

/// Puts the reason of the literal at a place of the trail before the hints, where it is needed.
fn explain_literal(
    _clauses: &Clauses,
    solver: &Solver,
    marks: &mut Vec<bool>,
    hints: &mut Vec<i64>,
    at: usize,
) -> Result<(), NoMemory>
    requires small { length _clauses.now < 2 ^ 31 }
    requires known { AreKnown _clauses.now solver.now }
    requires in_trail { at < length solver.now.trail }
    requires explained { IsExplained (store_of _clauses.now solver.now.lines.items) solver.now.trail solver.now.decisions.items marks.old.items hints.old.items (at + 1) }
    ensures { OnOk result (IsExplained (store_of _clauses.now solver.now.lines.items) solver.now.trail solver.now.decisions.items marks.new.items hints.new.items at) }
{
    if !is_needed(marks.as_slice(), literal_at(solver, at)) {
        return Ok(());
    }
    match reason_of(solver, at) {
        Reason::Decision => Ok(()),
        Reason::Line(id) => {
            push_hint(hints, id)?;
            Ok(())
        }
        Reason::Clause(c) => {
            mark_clause(marks, solver.long.clause(c))?;
            push_hint(hints, id_of(solver, c))?;
            Ok(())
        }
    }
}

/// Hints that lead from the decisions to the conflict in a clause, in their order.
pub fn explain(
    alloc: Global,
    clauses: &Clauses,
    solver: &Solver,
    conflict: usize,
) -> Result<Vec<i64>, NoMemory>
    requires small { length clauses.now < 2 ^ 31 }
    requires known { AreKnown clauses.now solver.now }
    requires in_clauses { conflict < length clauses.now }
    requires conflict { IsFalseBy solver.now.trail (clause_of clauses.now conflict) }
    ensures leads { IfOk result (λ hints. LeadsToConflict (store_of clauses.now solver.now.lines.items) solver.now.trail (λ l. IsIn solver.now.decisions.items l) hints.items) }
    ensures hints { IfOk result (λ hints. AreHints hints.items) }
{
    let mut marks = Vec::new(alloc);
    let mut hints = Vec::new(alloc);
    mark_clause(&mut marks, clauses.clause(conflict))?;
    push_hint(&mut hints, conflict as u64 + 1)?;
    let mut at = solver.trail.len();
    'trail: while at > 0 {
        at -= 1;
        explain_literal(clauses, solver, &mut marks, &mut hints, at)?;
    }
    hints.reverse();
    Ok(hints)
}
