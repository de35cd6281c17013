//! Which variable is decided next, and as which literal: the one that conflicts met most often of
//! late, with the value that it had last. Answers don't rest on it, so that nothing is promised but
//! that it is safe, and that what is to be decided is a literal without a value.
ghost use Rattle.std.specs.Prelude.{◌≡◌, ◌<◌, ◌^◌, false, MatchOption};
ghost use Rattle.jd_logic.specs.Literals.{IsLiteral};
ghost use Rattle.jd_proving.specs.Propagation.{has_value};

use jd_propagate::trail::negation;
use jd_propagate::{Clauses, NoMemory, Trail};
use jd_prover::BOUND;
use jd_prover::decide::literal_of;
use std::alloc::Global;

/// The activity that the first conflict gives.
const FIRST_STEP: u64 = 1 << 16;

/// Each conflict gives more activity than the one before, by one part in so many.
const DECAY: u64 = 19;

/// Where a conflict gives more, all activities are scaled down by so many bits.
const GREATEST_STEP: u64 = 1 << 58;

const SCALE: u32 = 42;

/// What is known of a variable.
#[derive(Clone, Copy)]
struct Variable {
    activity: u64,
    /// The decisions before it became true or false, where it has a value.
    level: u32,
    /// Its place in the trail, where it has a value.
    trail_place: usize,
    /// The last conflict that met it.
    conflict: u32,
    /// The last conflict that asked whether it follows from what the line has, and the answer.
    asked: u32,
    follows: bool,
    /// Its place in the heap, where it is there.
    heap_place: Option<usize>,
    phase: bool,
    /// Whether it stands in a clause.
    occurs: bool,
}

/// A variable that no conflict met, outside the heap.
fn unmet() -> Variable {
    Variable {
        activity: 0,
        level: 0,
        trail_place: 0,
        conflict: 0,
        asked: 0,
        follows: false,
        heap_place: None,
        phase: false,
        occurs: false,
    }
}

/// Variables by activity, the greatest first among equals: a heap, with what is known of each. What
/// stands in no clause comes last, by a count down: most inputs of a judge's question are so.
#[derive(Drop)]
pub struct Order {
    variables: Vec<Variable>,
    heap: Vec<u32>,
    /// The variables up to this one weren't counted yet.
    rest: u32,
    step: u64,
    conflict: u32,
}

/// A variable's literal of a given sign.
fn signed(variable: u32, positive: bool) -> i32
    requires above { 0 < variable }
    requires small { variable < 2 ^ 31 }
    ensures { IsLiteral result }
{
    let l = literal_of(variable);
    if positive { l } else { negation(l) }
}

/// The greatest variable of a clause, or a given one.
fn greatest_in(clause: &[i32], least: u32) -> u32 {
    let mut greatest = least;
    for l in clause {
        greatest = greatest.max(l.unsigned_abs());
    }
    greatest
}

/// The greatest variable of clauses, or a given one.
fn greatest_of(clauses: &Clauses, least: u32) -> u32 {
    let mut greatest = least;
    for at in 0..clauses.len() {
        greatest = greatest_in(clauses.clause(at), greatest);
    }
    greatest
}

impl Order {
    /// All variables of clauses and the inputs, none of them met by a conflict.
    pub fn new(alloc: Global, clauses: &Clauses, inputs: u32) -> Result<Order, NoMemory> {
        let count = greatest_of(clauses, inputs);
        let mut variables = Vec::new(alloc);
        variables.resize(count as usize + 1, unmet())?;
        let mut order = Order {
            variables,
            heap: Vec::new(alloc),
            rest: count,
            step: FIRST_STEP,
            conflict: 0,
        };
        for at in 0..clauses.len() {
            order.note_clause(clauses.clause(at));
        }
        for i in 0..count {
            if order.occurs(count - i) {
                order.put_back(count - i)?;
            }
        }
        Ok(order)
    }

    fn known(&self, variable: u32) -> Option<&Variable> {
        self.variables.get(variable as usize)
    }

    fn known_mut(&mut self, variable: u32) -> Option<&mut Variable> {
        self.variables.get_mut(variable as usize)
    }

    /// Notes that the variables of a clause stand in one.
    fn note_clause(&mut self, clause: &[i32]) {
        for l in clause {
            if let Some(known) = self.known_mut(l.unsigned_abs()) {
                known.occurs = true;
            }
        }
    }

    fn occurs(&self, variable: u32) -> bool {
        match self.known(variable) {
            Some(known) => known.occurs,
            None => false,
        }
    }

    fn activity(&self, variable: u32) -> u64 {
        match self.known(variable) {
            Some(known) => known.activity,
            None => 0,
        }
    }

    /// Whether one variable is decided before another.
    fn is_before(&self, one: u32, other: u32) -> bool {
        let one_activity = self.activity(one);
        let other_activity = self.activity(other);
        one_activity > other_activity || one_activity == other_activity && one > other
    }

    fn set_heap_place(&mut self, variable: u32, place: Option<usize>) {
        if let Some(known) = self.known_mut(variable) {
            known.heap_place = place;
        }
    }

    /// Changes the variables at two places of the heap, where the second belongs before the first.
    fn exchange(&mut self, upper: usize, lower: usize) -> bool {
        if upper >= self.heap.len() || lower >= self.heap.len() {
            return false;
        }
        let above = self.heap[upper];
        let below = self.heap[lower];
        if !self.is_before(below, above) {
            return false;
        }
        self.heap[upper] = below;
        self.heap[lower] = above;
        self.set_heap_place(below, Some(upper));
        self.set_heap_place(above, Some(lower));
        true
    }

    /// Lets the variable at a place rise to where it belongs.
    fn raise(&mut self, from: usize) {
        let mut at = from;
        for _ in 0..64u32 {
            if at == 0 {
                return;
            }
            let parent = (at - 1) / 2;
            if !self.exchange(parent, at) {
                return;
            }
            at = parent;
        }
    }

    /// The one of two neighbours that belongs before the other.
    fn first_child(&self, left: usize) -> usize {
        let count = self.heap.len();
        if left < count
            && left + 1 < count
            && self.is_before(self.heap[left + 1], self.heap[left])
        {
            left + 1
        } else {
            left
        }
    }

    /// Lets the variable at a place sink to where it belongs.
    fn lower(&mut self, from: usize) {
        let mut at = from;
        for _ in 0..64u32 {
            if at >= self.heap.len() / 2 {
                return;
            }
            let child = self.first_child(2 * at + 1);
            if !self.exchange(at, child) {
                return;
            }
            at = child;
        }
    }

    /// Takes the first variable out of the heap.
    fn take_first(&mut self) -> Option<u32> {
        let last = self.heap.pop()?;
        if self.heap.is_empty() {
            self.set_heap_place(last, None);
            return Some(last);
        }
        let first = self.heap[0];
        self.heap[0] = last;
        self.set_heap_place(last, Some(0));
        self.set_heap_place(first, None);
        self.lower(0);
        Some(first)
    }

    fn is_in_heap(&self, variable: u32) -> bool {
        match self.known(variable) {
            Some(known) => known.heap_place.is_some(),
            None => false,
        }
    }

    /// Puts a variable into the heap, where it isn't there.
    fn put_back(&mut self, variable: u32) -> Result<(), NoMemory> {
        if self.is_in_heap(variable) {
            return Ok(());
        }
        let place = self.heap.len();
        self.heap.push(variable)?;
        self.set_heap_place(variable, Some(place));
        self.raise(place);
        Ok(())
    }

    /// Begins a conflict, which has met no variable.
    pub fn begin_conflict(&mut self) {
        self.conflict = self.conflict.wrapping_add(1);
    }

    /// Whether the conflict meets a literal's variable for the first time; it is then more active.
    pub fn meet(&mut self, l: i32) -> bool {
        let conflict = self.conflict;
        let step = self.step;
        let Some(known) = self.known_mut(l.unsigned_abs()) else {
            return false;
        };
        if known.conflict == conflict {
            return false;
        }
        known.conflict = conflict;
        known.activity = known.activity.saturating_add(step);
        if let Some(place) = known.heap_place {
            self.raise(place);
        }
        true
    }

    /// Ends a conflict: the next one gives more activity.
    pub fn end_conflict(&mut self) {
        self.step = self.step.saturating_add(self.step / DECAY);
        if self.step > GREATEST_STEP {
            self.step >>= SCALE;
            for at in 0..self.variables.len() {
                self.variables[at].activity >>= SCALE;
            }
        }
    }

    /// The decisions before a literal of the trail.
    pub fn level(&self, l: i32) -> u32 {
        match self.known(l.unsigned_abs()) {
            Some(known) => known.level,
            None => 0,
        }
    }

    /// The place in the trail of a literal's variable.
    pub fn trail_place(&self, l: i32) -> usize {
        match self.known(l.unsigned_abs()) {
            Some(known) => known.trail_place,
            None => 0,
        }
    }

    /// What this conflict found where it asked whether a literal follows from what the line has.
    pub fn found(&self, l: i32) -> Option<bool> {
        let known = self.known(l.unsigned_abs())?;
        if known.asked == self.conflict {
            Some(known.follows)
        } else {
            None
        }
    }

    /// Notes whether a literal follows from what the line of this conflict has.
    pub fn note_found(&mut self, l: i32, follows: bool) {
        let conflict = self.conflict;
        if let Some(known) = self.known_mut(l.unsigned_abs()) {
            known.asked = conflict;
            known.follows = follows;
        }
    }

    /// Notes the decisions before literals that became true, and their places in the trail, which
    /// are one behind another.
    pub fn set_levels(&mut self, literals: &[i32], from: usize, level: u32) {
        let mut place = from;
        for l in literals {
            if let Some(known) = self.known_mut(l.unsigned_abs()) {
                known.level = level;
                known.trail_place = place;
            }
            place = place.saturating_add(1);
        }
    }

    /// Takes back literals that are no longer true, and remembers their values.
    pub fn take_back(&mut self, literals: &[i32]) -> Result<(), NoMemory> {
        for l in literals {
            let variable = l.unsigned_abs();
            if let Some(known) = self.known_mut(variable) {
                known.phase = *l > 0;
            }
            self.put_back(variable)?;
        }
        Ok(())
    }

    fn phase(&self, variable: u32) -> bool {
        match self.known(variable) {
            Some(known) => known.phase,
            None => false,
        }
    }

    /// A variable as the literal to be decided, or None where it has a value.
    fn open_literal(&self, trail: &Trail, variable: u32) -> Option<i32>
        ensures { MatchOption result (Unit {0}) (λ l. IsLiteral l × (has_value trail.now l ≡ false)) }
    {
        if variable == 0 || variable >= BOUND {
            return None;
        }
        let l = signed(variable, self.phase(variable));
        if trail.has_value(l) {
            return None;
        }
        Some(l)
    }

    /// The next variable of the heap as the literal to be decided, or None where none is left.
    fn next_in_heap(&mut self, trail: &Trail) -> Option<i32>
        ensures { MatchOption result (Unit {0}) (λ l. IsLiteral l × (has_value trail.now l ≡ false)) }
    {
        for _ in 0..self.heap.len() {
            let variable = self.take_first()?;
            let found = self.open_literal(trail, variable);
            if found.is_some() {
                return found;
            }
        }
        None
    }

    /// Whether what is left stands in no clause.
    pub fn is_at_rest(&self) -> bool {
        self.heap.is_empty()
    }

    /// The next variable as the literal to be decided, or None where none is left. Variables that
    /// have a value are passed over.
    pub fn next(&mut self, trail: &Trail) -> Option<i32>
        ensures { MatchOption result (Unit {0}) (λ l. IsLiteral l × (has_value trail.now l ≡ false)) }
    {
        let first = self.next_in_heap(trail);
        if first.is_some() {
            return first;
        }
        for _ in 0..self.rest {
            let variable = self.rest;
            self.rest = variable.saturating_sub(1);
            let found = self.open_literal(trail, variable);
            if found.is_some() {
                return found;
            }
        }
        None
    }
}
