//! The plain search, a walk over the tree of the inputs' values: each conflict adds a line and
//! turns the last decision round. It also answers where the learning search finds that it can't.
ghost use Rattle.std.specs.Prelude.{◌≡◌, ℕ, ◌-◌, ◌<◌, ◌≤◌, ◌^◌, false, IfOk, Some, None, length, slice_index};
ghost use Rattle.std.specs.List.{list_any};
ghost use Rattle.jd_logic.specs.Checking.{is_empty};
ghost use Rattle.jd_proving.specs.Proving.{AreDecided};
ghost use Rattle.jd_propagate.specs.Answers.{IsAnswer};
ghost use Rattle.jd_prover.specs.Solving.{IsTaken};
ghost use Rattle.jd_prover.specs.Searching.{IsStart, IsNode, IsTurned};

use crate::Solver;
use crate::decide::{decide, turn_back, values};
use crate::line::conflict_line;
use crate::order::Order;
use crate::setup::{Prepared, prepare};
use jd_propagate::propagate::propagate;
use jd_propagate::{Bits, Clauses, Log, NoMemory, Proof};
use std::alloc::Global;

/// What a turn of the search gives.
#[derive(Drop)]
pub enum Turned {
    /// All clauses are quiet, or the one at this place is false.
    Goes(Option<usize>),
    Refuted,
    Model(Vec<bool>),
    Spent,
}

/// Where a watched clause was given.
fn origin_of(solver: &Solver, clause: usize) -> usize
    requires { clause < length solver.now.origins.items }
    ensures { result ≡ slice_index solver.now.origins.items clause }
{
    solver.origins[clause]
}

/// Propagates from a place of the trail on; the place of a clause given that is false, or None.
fn run(
    _clauses: &Clauses,
    _inputs: u32,
    solver: &mut Solver,
    from: usize,
) -> Result<Option<usize>, NoMemory>
    requires { IsStart _clauses.now _inputs solver.old from }
    ensures node { IfOk result (λ found. IsNode _clauses.now _inputs solver.new found) }
    ensures lines { solver.new.lines.items ≡ solver.old.lines.items }
{
    let found = propagate(
        &solver.long,
        &mut solver.firsts,
        &mut solver.seconds,
        &mut solver.lists,
        &mut solver.trail,
        &mut solver.reasons,
        from,
    )?;
    match found {
        Some(c) => Ok(Some(origin_of(solver, c))),
        None => Ok(None),
    }
}

/// Propagates from the last literal on.
fn go_on(clauses: &Clauses, inputs: u32, solver: &mut Solver) -> Result<Turned, NoMemory>
    requires start { IsStart clauses.now inputs solver.old (length solver.old.trail - 1) }
    requires some { 0 < length solver.old.trail }
    ensures { IfOk result (λ turn. (budget : ℕ) → length solver.old.lines.items ≤ budget → IsTurned clauses.now inputs budget solver.new turn) }
{
    let from = solver.trail.len() - 1;
    let conflict = run(clauses, inputs, solver, from)?;
    Ok(Turned::Goes(conflict))
}

/// Adds the line of a conflict, and tries the other value of the last decision's variable.
fn refute(
    alloc: Global,
    clauses: &Clauses,
    inputs: u32,
    budget: u32,
    order: &mut Order,
    conflict: usize,
    solver: &mut Solver,
) -> Result<Turned, NoMemory>
    requires many { length clauses.now < 2 ^ 31 }
    requires none_empty { list_any is_empty clauses.now ≡ false }
    requires small { budget ≤ 2 ^ 20 }
    requires few { length solver.old.lines.items < budget }
    requires node { IsNode clauses.now inputs solver.old (Some conflict) }
    ensures { IfOk result (λ turn. IsTurned clauses.now inputs budget solver.new turn) }
{
    let id = clauses.len() as u64 + solver.lines.len() as u64 + 1;
    let line = conflict_line(alloc, clauses, solver, conflict, id)?;
    if solver.decisions.is_empty() {
        solver.lines.push(line)?;
        return Ok(Turned::Refuted);
    }
    turn_back(clauses, inputs, solver, line, id)?;
    order.go_back(solver);
    let turn = go_on(clauses, inputs, solver)?;
    Ok(turn)
}

/// Decides the next input without a value, or finds that all have one.
fn descend(
    alloc: Global,
    clauses: &Clauses,
    inputs: u32,
    budget: u32,
    order: &mut Order,
    solver: &mut Solver,
) -> Result<Turned, NoMemory>
    requires small { inputs < 2 ^ 31 }
    requires decided { AreDecided clauses.now inputs }
    requires few { length solver.old.lines.items ≤ budget }
    requires node { IsNode clauses.now inputs solver.old None }
    ensures { IfOk result (λ turn. IsTurned clauses.now inputs budget solver.new turn) }
{
    // For the fact that no literal of the trail stands beside its negation.
    let _literals = solver.trail.literals();
    match order.next(&solver.trail, inputs) {
        None => Ok(Turned::Model(values(alloc, &solver.trail, inputs)?)),
        Some(variable) => {
            decide(clauses, inputs, solver, variable)?;
            let turn = go_on(clauses, inputs, solver)?;
            Ok(turn)
        }
    }
}

/// One turn of the search.
fn turn(
    alloc: Global,
    clauses: &Clauses,
    inputs: u32,
    budget: u32,
    order: &mut Order,
    conflict: Option<usize>,
    solver: &mut Solver,
) -> Result<Turned, NoMemory>
    requires many { length clauses.now < 2 ^ 31 }
    requires none_empty { list_any is_empty clauses.now ≡ false }
    requires small { (inputs < 2 ^ 31) × (budget ≤ 2 ^ 20) }
    requires decided { AreDecided clauses.now inputs }
    requires few { length solver.old.lines.items ≤ budget }
    requires node { IsNode clauses.now inputs solver.old conflict }
    ensures { IfOk result (λ turn. IsTurned clauses.now inputs budget solver.new turn) }
{
    match conflict {
        None => descend(alloc, clauses, inputs, budget, order, solver),
        Some(conflict) => {
            if solver.lines.len() >= budget as usize {
                return Ok(Turned::Spent);
            }
            refute(alloc, clauses, inputs, budget, order, conflict, solver)
        }
    }
}

/// Goes over the inputs' values once all clauses are taken.
fn search(
    alloc: Global,
    clauses: &Clauses,
    inputs: u32,
    budget: u32,
    taken: Solver,
) -> Result<Proof, NoMemory>
    requires many { length clauses.now < 2 ^ 31 }
    requires none_empty { list_any is_empty clauses.now ≡ false }
    requires small { (inputs < 2 ^ 31) × (budget ≤ 2 ^ 20) }
    requires decided { AreDecided clauses.now inputs }
    requires taken { IsTaken clauses.now (length clauses.now) taken }
    ensures { IfOk result (λ proof. IsAnswer clauses.now inputs budget proof) }
{
    let mut order = Order::new(alloc, &taken, inputs)?;
    let mut solver = taken;
    let mut conflict = run(clauses, inputs, &mut solver, 0)?;
    // 2^64 turns never pass: the bound stands in for a measure.
    'nodes: for _ in 0..u64::MAX {
        match turn(
            alloc,
            clauses,
            inputs,
            budget,
            &mut order,
            conflict,
            &mut solver,
        )? {
            Turned::Goes(next) => conflict = next,
            Turned::Refuted => return Ok(Proof::Refuted(Log::new(solver.lines))),
            Turned::Model(bits) => return Ok(Proof::Model(Bits::new(bits))),
            Turned::Spent => return Ok(Proof::Unknown(Log::new(solver.lines))),
        }
    }
    Err(NoMemory)
}

/// Searches for a refutation by values of the inputs, or for a model. Where the clauses or the
/// inputs are 2^31 or more, it answers `NoMemory`.
pub fn prove(alloc: Global, clauses: &Clauses, inputs: u32, budget: u32) -> Result<Proof, NoMemory>
    requires decided { AreDecided clauses.now inputs }
    requires some { 0 < budget }
    requires small { budget ≤ 2 ^ 20 }
    ensures { IfOk result (λ proof. IsAnswer clauses.now inputs budget proof) }
{
    match prepare(alloc, clauses, inputs)? {
        Prepared::Answered(proof) => Ok(proof),
        Prepared::Ready(solver) => search(alloc, clauses, inputs, budget, solver),
    }
}
