//! What both searches do before any decision: they watch each clause given, or make its only
//! literal true. A clause that is empty, or whose only literal is false by then, ends the search at
//! once.
ghost use Rattle.std.specs.Prelude.{◌≡◌, ℕ, ◌+◌, ◌<◌, ◌^◌, ℤ, false, IfOk, MatchBool, length, List};
ghost use Rattle.std.specs.List.{list_any};
ghost use Rattle.jd_logic.specs.Literals.{IsLiteral};
ghost use Rattle.jd_logic.specs.Checking.{is_empty};
ghost use Rattle.jd_propagate.specs.Answers.{IsAnswer};
ghost use Rattle.jd_propagate.specs.Hints.{IsFalseBy};
ghost use Rattle.jd_propagate.specs.Quiet.{IsIn};
ghost use Rattle.jd_propagate.specs.Passing.{clause_of};
ghost use Rattle.jd_prover.specs.Preparing.{IsPrepared};
ghost use Rattle.jd_prover.specs.Solving.{IsTaken, IsTakenBy, IsUnitTaken, AreTaken};

use crate::line::conflict_line;
use crate::solver::{BOUND, Solver, make_true};
use jd_propagate::attach::{other_than, watch};
use jd_propagate::{Clauses, Log, NoMemory, Proof, Reason, Trail};
use std::alloc::Global;

/// What is known once the clauses given were taken.
#[derive(Drop)]
pub enum Prepared {
    /// A clause is empty, or false before any decision.
    Answered(Proof),
    /// All clauses were taken, and a search may begin.
    Ready(Solver),
}

/// The first literal of a clause.
fn first_of(clause: &[i32]) -> i32
    requires { is_empty clause.now ≡ false }
    ensures { IsIn clause.now result }
{
    clause[0]
}

/// Makes the one literal of a clause true, or finds it false.
fn take_unit(clauses: &Clauses, solver: &mut Solver, at: usize, l: i32) -> Result<bool, NoMemory>
    requires in_clauses { at < length clauses.now }
    requires small { length clauses.now < 2 ^ 31 }
    requires among { IsIn (clause_of clauses.now at) l }
    requires alone { (m : ℤ) → IsIn (clause_of clauses.now at) m → m ≡ l }
    requires literal { IsLiteral l }
    ensures { IfOk result (λ kept. (n : ℕ) → IsTaken clauses.now n solver.old → IsUnitTaken clauses.now n at solver.new kept) }
{
    if solver.trail.has(l) {
        return Ok(true);
    }
    if solver.trail.is_false(l) {
        return Ok(false);
    }
    make_true(
        &mut solver.trail,
        &mut solver.reasons,
        l,
        Reason::Line(at as u64 + 1),
    )?;
    Ok(true)
}

/// Takes a clause: watches two of its literals, or makes its only one true. Whether it isn't false.
fn take_clause(
    alloc: Global,
    clauses: &Clauses,
    solver: &mut Solver,
    at: usize,
) -> Result<bool, NoMemory>
    requires in_clauses { at < length clauses.now }
    requires small { length clauses.now < 2 ^ 31 }
    requires not_empty { is_empty (clause_of clauses.now at) ≡ false }
    requires taken { IsTaken clauses.now at solver.old }
    ensures { IfOk result (λ kept. IsTakenBy clauses.now at solver.new kept) }
{
    let clause = clauses.clause(at);
    let first = first_of(clause);
    match other_than(clause, first) {
        Some(second) => {
            watch(
                alloc,
                &mut solver.long,
                &mut solver.firsts,
                &mut solver.seconds,
                &mut solver.lists,
                clause,
                first,
                second,
            )?;
            solver.origins.push(at)?;
            Ok(true)
        }
        None => {
            let kept = take_unit(clauses, solver, at, first)?;
            Ok(kept)
        }
    }
}

/// Takes a clause where it has but one literal. Whether it isn't false.
fn take_if_unit(clauses: &Clauses, solver: &mut Solver, at: usize) -> Result<bool, NoMemory>
    requires in_clauses { at < length clauses.now }
    requires small { length clauses.now < 2 ^ 31 }
    requires not_empty { is_empty (clause_of clauses.now at) ≡ false }
    requires taken { IsTaken clauses.now 0 solver.old }
    ensures taken { IfOk result (λ kept. IsTaken clauses.now 0 solver.new) }
    ensures conflict { IfOk result (λ kept. MatchBool kept (Unit {0}) (IsFalseBy solver.new.trail (clause_of clauses.now at))) }
{
    let clause = clauses.clause(at);
    let first = first_of(clause);
    match other_than(clause, first) {
        Some(_) => Ok(true),
        None => {
            let kept = take_unit(clauses, solver, at, first)?;
            Ok(kept)
        }
    }
}

/// A search that knows nothing.
fn begin(alloc: Global) -> Solver
    ensures { (clauses : List (List ℤ)) → IsTaken clauses 0 result }
{
    Solver {
        long: Clauses::new(alloc),
        origins: Vec::new(alloc),
        firsts: Vec::new(alloc),
        seconds: Vec::new(alloc),
        lists: Vec::new(alloc),
        trail: Trail::new(alloc),
        reasons: Vec::new(alloc),
        decisions: Vec::new(alloc),
        limits: Vec::new(alloc),
        lines: Vec::new(alloc),
    }
}

/// Whether a clause is empty.
fn is_no_clause(clause: &[i32]) -> bool
    ensures { result ≡ is_empty clause.now }
{
    clause.len() == 0
}

/// Whether some clause is empty.
fn has_empty(clauses: &Clauses) -> bool
    ensures { result ≡ list_any is_empty clauses.now }
{
    for at in 0..clauses.len() {
        if is_no_clause(clauses.clause(at)) {
            return true;
        }
    }
    false
}

/// Takes the clauses of one literal, or finds one that is false. They come before all others: where two
/// contradict each other, no clause is watched for nothing.
fn take_units(clauses: &Clauses, solver: &mut Solver) -> Result<Option<usize>, NoMemory>
    requires small { length clauses.now < 2 ^ 31 }
    requires none_empty { list_any is_empty clauses.now ≡ false }
    requires begun { IsTaken clauses.now 0 solver.old }
    ensures { IfOk result (λ found. AreTaken clauses.now 0 solver.new found) }
{
    for at in 0..clauses.len() {
        if !take_if_unit(clauses, solver, at)? {
            return Ok(Some(at));
        }
    }
    Ok(None)
}

/// Takes all clauses, or finds one that is false.
fn take_all(
    alloc: Global,
    clauses: &Clauses,
    solver: &mut Solver,
) -> Result<Option<usize>, NoMemory>
    requires small { length clauses.now < 2 ^ 31 }
    requires none_empty { list_any is_empty clauses.now ≡ false }
    requires begun { IsTaken clauses.now 0 solver.old }
    ensures { IfOk result (λ found. AreTaken clauses.now (length clauses.now) solver.new found) }
{
    if let Some(at) = take_units(clauses, solver)? {
        return Ok(Some(at));
    }
    for at in 0..clauses.len() {
        if !take_clause(alloc, clauses, solver, at)? {
            return Ok(Some(at));
        }
    }
    Ok(None)
}

/// Ends at a clause that is false before any decision.
fn refute_begun(
    alloc: Global,
    clauses: &Clauses,
    conflict: usize,
    taken: Solver,
) -> Result<Proof, NoMemory>
    requires many { length clauses.now < 2 ^ 31 }
    requires none_empty { list_any is_empty clauses.now ≡ false }
    requires in_clauses { conflict < length clauses.now }
    requires taken { IsTaken clauses.now 0 taken }
    requires conflict { IsFalseBy taken.trail (clause_of clauses.now conflict) }
    ensures { IfOk result (λ proof. (inputs budget : ℕ) → 0 < budget → IsAnswer clauses.now inputs budget proof) }
{
    let mut solver = taken;
    let id = clauses.len() as u64 + 1;
    let line = conflict_line(alloc, clauses, &solver, conflict, id)?;
    solver.lines.push(line)?;
    Ok(Proof::Refuted(Log::new(solver.lines)))
}

/// Takes the clauses given, before a search over so many inputs. Where either are 2^31 or more, it
/// answers `NoMemory`.
pub fn prepare(alloc: Global, clauses: &Clauses, inputs: u32) -> Result<Prepared, NoMemory>
    ensures { IfOk result (λ prepared. IsPrepared clauses.now inputs prepared) }
{
    if clauses.len() >= BOUND as usize || inputs >= BOUND {
        return Err(NoMemory);
    }
    if has_empty(clauses) {
        return Ok(Prepared::Answered(Proof::Refuted(Log::new(Vec::new(alloc)))));
    }
    let mut solver = begin(alloc);
    if let Some(conflict) = take_all(alloc, clauses, &mut solver)? {
        let proof = refute_begun(alloc, clauses, conflict, solver)?;
        return Ok(Prepared::Answered(proof));
    }
    Ok(Prepared::Ready(solver))
}
