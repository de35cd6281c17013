//! The learning search, which the judge asks: each conflict gives a line, and the search goes back
//! to where that makes a literal true. Where that gives nothing, or a sufficient budget is spent,
//! the plain search answers.
ghost use Rattle.std.specs.Prelude.{◌≡◌, ℕ, ◌+◌, ◌-◌, ◌<◌, ◌≤◌, ◌^◌, [], pos, false, true, Some, None, IfOk, OnOk, MatchBool, MatchOption, length};
ghost use Rattle.std.specs.List.{list_any};
ghost use Rattle.jd_logic.specs.Literals.{IsLiteral, AreHints};
ghost use Rattle.jd_logic.specs.Checking.{is_empty};
ghost use Rattle.jd_proving.specs.Propagation.{has_value};
ghost use Rattle.jd_proving.specs.Proving.{AreDecided};
ghost use Rattle.jd_propagate.specs.Answers.{IsAnswer};
ghost use Rattle.jd_prover.specs.Solving.{IsRight, IsTaken};
ghost use Rattle.jd_learn.specs.Learning.{IsBegun, IsEnded, IsLearning, IsQuietSearch};
ghost use Rattle.jd_learn.specs.Outcomes.{IsTurned};

use crate::analysis::analyse;
use crate::learning::{cut, teach};
use crate::order::Order;
use crate::restarts::Restarts;
use jd_propagate::propagate::propagate;
use jd_propagate::{Bits, Clause, Clauses, Hints, Line, Log, NoMemory, Proof, Reason};
use jd_prover::decide::{literal_of, next_open, values};
use jd_prover::setup::{Prepared, prepare};
use jd_prover::{BOUND, Solver, make_true};
use std::alloc::Global;

/// What a turn of the search gives.
#[derive(Drop)]
pub enum Turned {
    /// All clauses are quiet, or the watched one at this place is false.
    Goes(Option<usize>),
    Refuted,
    Model(Vec<bool>),
    /// As many lines as the budget has, without the empty clause.
    Spent,
    /// What a conflict taught gives propagation nothing.
    Fails,
}

/// What chooses the search's way: no answer rests on it.
#[derive(Drop)]
pub struct Guide {
    pub order: Order,
    pub restarts: Restarts,
}

/// How many decisions there are.
fn level_of(solver: &Solver) -> u32 {
    let count = solver.limits.len();
    if count < BOUND as usize {
        count as u32
    } else {
        0
    }
}

/// Notes the level of the literals from a place of the trail on.
fn note_levels(solver: &Solver, order: &mut Order, from: usize) {
    let literals = solver.trail.literals();
    if from <= literals.len() {
        order.set_levels(&literals[from..], from, level_of(solver));
    }
}

/// Propagates from a place of the trail on; the place of a watched clause that is false, or None.
fn run(
    _clauses: &Clauses,
    solver: &mut Solver,
    order: &mut Order,
    from: usize,
) -> Result<Option<usize>, NoMemory>
    requires { IsBegun _clauses.now solver.old from }
    ensures ended { IfOk result (λ found. IsEnded _clauses.now solver.new found) }
    ensures lines { solver.new.lines.items ≡ solver.old.lines.items }
{
    let found = propagate(
        &solver.long,
        &mut solver.firsts,
        &mut solver.seconds,
        &mut solver.lists,
        &mut solver.trail,
        &mut solver.reasons,
        from,
    )?;
    note_levels(solver, order, from);
    Ok(found)
}

/// Propagates from the last literal on.
fn go_on(clauses: &Clauses, solver: &mut Solver, order: &mut Order) -> Result<Turned, NoMemory>
    requires begun { IsBegun clauses.now solver.old (length solver.old.trail - 1) }
    requires some { 0 < length solver.old.trail }
    ensures { IfOk result (λ turn. (inputs budget : ℕ) → length solver.old.lines.items ≤ budget → IsTurned clauses.now inputs budget solver.new turn) }
{
    let from = solver.trail.len() - 1;
    let conflict = run(clauses, solver, order, from)?;
    Ok(Turned::Goes(conflict))
}

/// The next literal to be decided, or None where all inputs have values.
fn choose(order: &mut Order, solver: &Solver, inputs: u32) -> Option<i32>
    requires { inputs < 2 ^ 31 }
    ensures { MatchOption result
        ((v : ℕ) → 0 < v → v ≤ inputs → has_value solver.now.trail (pos v) ≡ true)
        (λ l. IsLiteral l × (has_value solver.now.trail l ≡ false)) }
{
    if let Some(l) = order.next(&solver.trail) {
        return Some(l);
    }
    let variable = next_open(&solver.trail, 0, inputs)?;
    Some(literal_of(variable))
}

/// Opens a level: what is decided from here on is taken back together.
fn open_level(_clauses: &Clauses, solver: &mut Solver) -> Result<(), NoMemory>
    requires { IsQuietSearch _clauses.now solver.old }
    ensures begun { OnOk result (IsBegun _clauses.now solver.new (length solver.old.trail)) }
    ensures trail { solver.new.trail ≡ solver.old.trail }
    ensures lines { solver.new.lines.items ≡ solver.old.lines.items }
{
    solver.limits.push(solver.trail.len())?;
    Ok(())
}

/// Decides a literal on the level that is open, before propagation from a place on.
fn decide(_clauses: &Clauses, solver: &mut Solver, l: i32, _from: usize) -> Result<(), NoMemory>
    requires begun { IsBegun _clauses.now solver.old _from }
    requires literal { IsLiteral l }
    requires open { has_value solver.old.trail l ≡ false }
    ensures begun { OnOk result (IsBegun _clauses.now solver.new _from) }
    ensures lines { solver.new.lines.items ≡ solver.old.lines.items }
{
    make_true(&mut solver.trail, &mut solver.reasons, l, Reason::Decision)?;
    Ok(())
}

/// Decides all variables that are left on the level that is open. Where they stand in no clause, one
/// propagation serves them all.
fn decide_rest(
    clauses: &Clauses,
    solver: &mut Solver,
    order: &mut Order,
    inputs: u32,
    from: usize,
) -> Result<(), NoMemory>
    requires { IsBegun clauses.now solver.old from }
    ensures begun { OnOk result (IsBegun clauses.now solver.new from) }
    ensures lines { solver.new.lines.items ≡ solver.old.lines.items }
{
    for _ in 0..inputs {
        let Some(l) = order.next(&solver.trail) else {
            return Ok(());
        };
        decide(clauses, solver, l, from)?;
    }
    Ok(())
}

/// Decides a literal, and with it all that is left where no variable of a clause is; then propagates.
fn try_literal(
    clauses: &Clauses,
    solver: &mut Solver,
    order: &mut Order,
    inputs: u32,
    l: i32,
) -> Result<Option<usize>, NoMemory>
    requires quiet { IsQuietSearch clauses.now solver.old }
    requires literal { IsLiteral l }
    requires open { has_value solver.old.trail l ≡ false }
    ensures ended { IfOk result (λ found. IsEnded clauses.now solver.new found) }
    ensures lines { solver.new.lines.items ≡ solver.old.lines.items }
{
    let from = solver.trail.len();
    open_level(clauses, solver)?;
    decide(clauses, solver, l, from)?;
    if order.is_at_rest() {
        decide_rest(clauses, solver, order, inputs, from)?;
    }
    let conflict = run(clauses, solver, order, from)?;
    Ok(conflict)
}

/// Decides the next literal, or finds that all inputs have values.
fn descend(
    alloc: Global,
    clauses: &Clauses,
    inputs: u32,
    budget: u32,
    order: &mut Order,
    solver: &mut Solver,
) -> Result<Turned, NoMemory>
    requires small { inputs < 2 ^ 31 }
    requires decided { AreDecided clauses.now inputs }
    requires few { length solver.old.lines.items ≤ budget }
    requires quiet { IsQuietSearch clauses.now solver.old }
    ensures { IfOk result (λ turn. IsTurned clauses.now inputs budget solver.new turn) }
{
    // For the fact that no literal of the trail stands beside its negation.
    let _literals = solver.trail.literals();
    match choose(order, solver, inputs) {
        None => Ok(Turned::Model(values(alloc, &solver.trail, inputs)?)),
        Some(l) => {
            let conflict = try_literal(clauses, solver, order, inputs, l)?;
            Ok(Turned::Goes(conflict))
        }
    }
}

/// Ends the search with the empty clause.
fn end(
    clauses: &Clauses,
    _inputs: u32,
    _budget: u32,
    solver: &mut Solver,
    alloc: Global,
    hints: Vec<i64>,
) -> Result<Turned, NoMemory>
    requires learning { IsLearning clauses.now solver.old }
    requires none_empty { list_any is_empty clauses.now ≡ false }
    requires few { length solver.old.lines.items < _budget }
    requires small { length clauses.now + length solver.old.lines.items < 2 ^ 61 }
    requires hints { AreHints hints.items }
    requires right { IsRight clauses.now solver.old.lines.items [] hints.items }
    ensures { IfOk result (λ turn. IsTurned clauses.now _inputs _budget solver.new turn) }
{
    let id = clauses.len() as u64 + solver.lines.len() as u64 + 1;
    let line = Line::Derive {
        id,
        clause: Clause::new(Vec::new(alloc)),
        hints: Hints::new(hints),
    };
    solver.lines.push(line)?;
    Ok(Turned::Refuted)
}

/// The decisions that are kept where a conflict taught these literals: those up to the last but one.
fn level_back(order: &Order, kept: &[i32]) -> usize {
    if kept.len() < 2 {
        return 0;
    }
    order.level(kept[kept.len() - 2]) as usize
}

/// Learns from a clause that is false.
fn learn(
    alloc: Global,
    clauses: &Clauses,
    inputs: u32,
    budget: u32,
    order: &mut Order,
    conflict: usize,
    solver: &mut Solver,
) -> Result<Turned, NoMemory>
    requires many { length clauses.now < 2 ^ 31 }
    requires none_empty { list_any is_empty clauses.now ≡ false }
    requires small { budget ≤ 2 ^ 20 }
    requires few { length solver.old.lines.items < budget }
    requires ended { IsEnded clauses.now solver.old (Some conflict) }
    ensures { IfOk result (λ turn. IsTurned clauses.now inputs budget solver.new turn) }
{
    let taught = analyse(alloc, clauses, solver, order, level_of(solver), conflict)?;
    if taught.kept.is_empty() {
        let turn = end(clauses, inputs, budget, solver, alloc, taught.hints)?;
        return Ok(turn);
    }
    let level = level_back(order, taught.kept.as_slice());
    if level >= solver.limits.len() {
        return Ok(Turned::Fails);
    }
    cut(clauses, solver, order, level)?;
    if !teach(alloc, clauses, solver, taught)? {
        return Ok(Turned::Fails);
    }
    let turn = go_on(clauses, solver, order)?;
    Ok(turn)
}

/// One turn of the search.
fn turn(
    alloc: Global,
    clauses: &Clauses,
    inputs: u32,
    budget: u32,
    guide: &mut Guide,
    conflict: Option<usize>,
    solver: &mut Solver,
) -> Result<Turned, NoMemory>
    requires many { length clauses.now < 2 ^ 31 }
    requires none_empty { list_any is_empty clauses.now ≡ false }
    requires small { (inputs < 2 ^ 31) × (budget ≤ 2 ^ 20) }
    requires decided { AreDecided clauses.now inputs }
    requires few { length solver.old.lines.items ≤ budget }
    requires ended { IsEnded clauses.now solver.old conflict }
    ensures { IfOk result (λ turn. IsTurned clauses.now inputs budget solver.new turn) }
{
    let Some(clause) = conflict else {
        if !solver.limits.is_empty() && guide.restarts.take_restart() {
            cut(clauses, solver, &mut guide.order, 0)?;
            return Ok(Turned::Goes(None));
        }
        return descend(alloc, clauses, inputs, budget, &mut guide.order, solver);
    };
    if solver.lines.len() >= budget as usize {
        return Ok(Turned::Spent);
    }
    guide.restarts.count();
    learn(
        alloc,
        clauses,
        inputs,
        budget,
        &mut guide.order,
        clause,
        solver,
    )
}

/// Whether a budget is too small for a line at each node of the tree of the inputs' values.
fn is_small(inputs: u32, budget: u32) -> bool
    requires { budget ≤ 2 ^ 20 }
    ensures { MatchBool result (budget < 2 ^ (inputs + 1)) (Unit {0}) }
{
    if inputs >= 20 {
        return true;
    }
    budget < 2u32.pow(inputs + 1)
}

/// Searches once all clauses are taken. None where what was learned gives nothing, or where the
/// budget was spent though it has a line for each node of the tree of the inputs' values.
fn search(
    alloc: Global,
    clauses: &Clauses,
    inputs: u32,
    budget: u32,
    taken: Solver,
) -> Result<Option<Proof>, NoMemory>
    requires many { length clauses.now < 2 ^ 31 }
    requires none_empty { list_any is_empty clauses.now ≡ false }
    requires small { (inputs < 2 ^ 31) × (budget ≤ 2 ^ 20) }
    requires decided { AreDecided clauses.now inputs }
    requires taken { IsTaken clauses.now (length clauses.now) taken }
    ensures { IfOk result (λ found. MatchOption found (Unit {0}) (λ proof. IsAnswer clauses.now inputs budget proof)) }
{
    let mut guide = Guide {
        order: Order::new(alloc, clauses, inputs)?,
        restarts: Restarts::new(),
    };
    let mut solver = taken;
    let mut conflict = run(clauses, &mut solver, &mut guide.order, 0)?;
    // 2^64 turns never pass: the bound stands in for a measure.
    'turns: for _ in 0..u64::MAX {
        match turn(
            alloc,
            clauses,
            inputs,
            budget,
            &mut guide,
            conflict,
            &mut solver,
        )? {
            Turned::Goes(next) => conflict = next,
            Turned::Refuted => return Ok(Some(Proof::Refuted(Log::new(solver.lines)))),
            Turned::Model(bits) => return Ok(Some(Proof::Model(Bits::new(bits)))),
            Turned::Spent => {
                if !is_small(inputs, budget) {
                    return Ok(None);
                }
                return Ok(Some(Proof::Unknown(Log::new(solver.lines))));
            }
            Turned::Fails => return Ok(None),
        }
    }
    Err(NoMemory)
}

/// Searches for a refutation or a model, and learns from each conflict. It answers as the plain
/// search does: where a learned line gives propagation nothing, or the budget is spent though it
/// has a line for each node of the tree of the inputs' values, the answer is that of the plain
/// search. Where the clauses or the inputs are 2^31 or more, it answers `NoMemory`.
pub fn prove(alloc: Global, clauses: &Clauses, inputs: u32, budget: u32) -> Result<Proof, NoMemory>
    requires decided { AreDecided clauses.now inputs }
    requires some { 0 < budget }
    requires small { budget ≤ 2 ^ 20 }
    ensures { IfOk result (λ proof. IsAnswer clauses.now inputs budget proof) }
{
    match prepare(alloc, clauses, inputs)? {
        Prepared::Answered(proof) => Ok(proof),
        Prepared::Ready(solver) => match search(alloc, clauses, inputs, budget, solver)? {
            Some(proof) => Ok(proof),
            None => jd_prover::prove(alloc, clauses, inputs, budget),
        },
    }
}
