//! How the plain search tries both values of an input: it decides that it's false, and after a
//! conflict makes it true by the line. What looks at the values of inputs serves the learning
//! search too.
ghost use Rattle.std.specs.Prelude.{◌≡◌, ◌+◌, ◌-◌, ◌<◌, ◌≤◌, ◌^◌, ◌++◌, ◌∷◌, [], ℕ, pos, neg_ℤ, true, false, MatchOption, IfOk, OnOk, length, slice_index_or};
ghost use Rattle.jd_logic.specs.Literals.{IsLiteral, has};
ghost use Rattle.jd_proving.specs.Propagation.{has_value};
ghost use Rattle.jd_propagate.specs.declared.reason.Reason.TheVariants as because;
ghost use Rattle.jd_prover.specs.Solving.{IsConflictLine};
ghost use Rattle.jd_prover.specs.Searching.{IsNode, IsSearching, IsStart};

use crate::solver::{Solver, make_true};
use jd_propagate::{Clauses, Line, NoMemory, Reason, Trail};
use std::alloc::Global;

/// A variable's literal.
pub fn literal_of(variable: u32) -> i32
    requires { variable < 2 ^ 31 }
    ensures { result ≡ pos variable }
{
    variable as i32
}

/// Whether a variable has a value.
pub fn is_valued(trail: &Trail, variable: u32) -> bool
    requires above { 0 < variable }
    requires small { variable < 2 ^ 31 }
    ensures { result ≡ has_value trail.now (pos variable) }
{
    trail.has_value(literal_of(variable))
}

/// The first input above a given one that has no value.
pub fn next_open(trail: &Trail, cursor: u32, inputs: u32) -> Option<u32>
    requires { inputs < 2 ^ 31 }
    ensures { MatchOption result
        ((v : ℕ) → cursor < v → v ≤ inputs → has_value trail.now (pos v) ≡ true)
        (λ n. (cursor < n) × (n ≤ inputs) × (has_value trail.now (pos n) ≡ false) × ((v : ℕ) → cursor < v → v < n → has_value trail.now (pos v) ≡ true)) }
{
    let mut below = cursor;
    'variable: while below < inputs {
        if !is_valued(trail, below + 1) {
            return Some(below + 1);
        }
        below += 1;
    }
    None
}

/// Whether a variable is true.
fn is_true(trail: &Trail, variable: u32) -> bool
    requires above { 0 < variable }
    requires small { variable < 2 ^ 31 }
    ensures { result ≡ has trail.now (pos variable) }
{
    trail.has(literal_of(variable))
}

/// The inputs' values.
pub fn values(alloc: Global, trail: &Trail, inputs: u32) -> Result<Vec<bool>, NoMemory>
    requires { inputs < 2 ^ 31 }
    ensures many { IfOk result (λ bits. length bits.items ≡ inputs) }
    ensures values { IfOk result (λ bits. (k : ℕ) → k < inputs → slice_index_or bits.items k false ≡ has trail.now (pos (k + 1))) }
{
    let mut bits = Vec::new(alloc);
    for variable in 0..inputs {
        bits.push(is_true(trail, variable + 1))?;
    }
    Ok(bits)
}

/// A variable's negation.
fn negation_of(variable: u32) -> i32
    requires above { 0 < variable }
    requires small { variable < 2 ^ 31 }
    ensures same { result ≡ neg_ℤ (pos variable) }
{
    -literal_of(variable)
}

/// Decides that an input without a value is false.
pub fn decide(
    _clauses: &Clauses,
    _inputs: u32,
    solver: &mut Solver,
    variable: u32,
) -> Result<(), NoMemory>
    requires small { _inputs < 2 ^ 31 }
    requires node { IsNode _clauses.now _inputs solver.old None }
    requires input { (0 < variable) × (variable ≤ _inputs) }
    requires no_value { has_value solver.old.trail (pos variable) ≡ false }
    ensures start { OnOk result (IsStart _clauses.now _inputs solver.new (length solver.new.trail - 1)) }
    ensures lines { solver.new.lines.items ≡ solver.old.lines.items }
    ensures some { OnOk result (0 < length solver.new.trail) }
{
    let l = negation_of(variable);
    solver.limits.push(solver.trail.len())?;
    solver.decisions.push(l)?;
    make_true(&mut solver.trail, &mut solver.reasons, l, Reason::Decision)?;
    Ok(())
}

/// Makes the negation of a literal true by a line.
fn make_false(trail: &mut Trail, reasons: &mut Vec<Reason>, l: i32, id: u64) -> Result<(), NoMemory>
    requires literal { IsLiteral l }
    requires no_value { has_value trail.old l ≡ false }
    ensures trail { OnOk result (trail.new ≡ trail.old ++ neg_ℤ l ∷ []) }
    ensures reasons { OnOk result (reasons.new.items ≡ reasons.old.items ++ because.Line id ∷ []) }
{
    make_true(trail, reasons, -l, Reason::Line(id))
}

/// Takes back the last decision, and makes its negation true by the line of a conflict.
pub fn turn_back(
    _clauses: &Clauses,
    _inputs: u32,
    solver: &mut Solver,
    line: Line,
    id: u64,
) -> Result<(), NoMemory>
    requires many { length _clauses.now < 2 ^ 31 }
    requires searching { IsSearching _clauses.now _inputs solver.old }
    requires decided { 0 < length solver.old.decisions.items }
    requires next { id ≡ length _clauses.now + length solver.old.lines.items + 1 }
    requires few { length solver.old.lines.items < 2 ^ 20 }
    requires line { IsConflictLine _clauses.now solver.old id line }
    ensures start { OnOk result (IsStart _clauses.now _inputs solver.new (length solver.new.trail - 1)) }
    ensures lines { OnOk result (length solver.new.lines.items ≡ length solver.old.lines.items + 1) }
    ensures some { OnOk result (0 < length solver.new.trail) }
{
    // For the fact that no literal of the trail stands beside its negation.
    let _literals = solver.trail.literals();
    let last = solver.decisions.len() - 1;
    let l = solver.decisions[last];
    let limit = solver.limits[last];
    solver.decisions.truncate(last);
    solver.limits.truncate(last);
    solver.trail.cut(limit);
    solver.reasons.truncate(limit);
    make_false(&mut solver.trail, &mut solver.reasons, l, id)?;
    solver.lines.push(line)?;
    Ok(())
}
