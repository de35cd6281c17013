//! The line that a conflict gives, so that the decisions can't all be true again: the clause of
//! their negations, with hints. With no decision it's the empty clause, with which a log ends.
ghost use Rattle.std.specs.Prelude.{◌≡◌, ◌<◌, ◌^◌, IfOk, length};
ghost use Rattle.jd_logic.specs.Literals.{AreLiterals};
ghost use Rattle.jd_propagate.specs.Quiet.{IsWithin};
ghost use Rattle.jd_propagate.specs.Hints.{IsFalseBy};
ghost use Rattle.jd_propagate.specs.Levels.{negated};
ghost use Rattle.jd_propagate.specs.Passing.{clause_of};
ghost use Rattle.jd_prover.specs.Solving.{AreKnown, IsConflictLine};

use crate::Solver;
use crate::explain::explain;
use jd_propagate::trail::negation;
use jd_propagate::{Clause, Clauses, Hints, Line, NoMemory};
use std::alloc::Global;

/// The negated literals of a list.
pub fn negations(alloc: Global, literals: &[i32]) -> Result<Vec<i32>, NoMemory>
    requires { AreLiterals literals.now }
    ensures same { IfOk result (λ ls. ls.items ≡ negated literals.now) }
    ensures literals { IfOk result (λ ls. AreLiterals ls.items) }
{
    let mut negations = Vec::new(alloc);
    for l in literals {
        negations.push(negation(*l))?;
    }
    Ok(negations)
}

/// The line that a conflict gives: the clause of the negated decisions, with hints that show it.
pub fn conflict_line(
    alloc: Global,
    clauses: &Clauses,
    solver: &Solver,
    conflict: usize,
    id: u64,
) -> Result<Line, NoMemory>
    requires many { length clauses.now < 2 ^ 31 }
    requires known { AreKnown clauses.now solver.now }
    requires decisions { IsWithin solver.now.decisions.items solver.now.trail }
    requires literals { AreLiterals solver.now.decisions.items }
    requires in_clauses { conflict < length clauses.now }
    requires conflict { IsFalseBy solver.now.trail (clause_of clauses.now conflict) }
    ensures { IfOk result (λ line. IsConflictLine clauses.now solver.now id line) }
{
    let hints = explain(alloc, clauses, solver, conflict)?;
    let clause = negations(alloc, solver.decisions.as_slice())?;
    Ok(Line::Derive {
        id,
        clause: Clause::new(clause),
        hints: Hints::new(hints),
    })
}
