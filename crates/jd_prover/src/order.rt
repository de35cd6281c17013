//! Which input is decided next: in their order those that a watched clause names, and after them,
//! in theirs, the others. A line has the negation of each decision, so that a decision on an input
//! that no clause names would make it longer for nothing. No answer depends on the order: it is
//! promised alone that an input without a value comes, as long as there is one.
ghost use Rattle.std.specs.Prelude.{◌≡◌, ℕ, ◌<◌, ◌≤◌, ◌^◌, pos, true, false, IfSome, MatchOption};
ghost use Rattle.jd_proving.specs.Propagation.{has_value};

use crate::Solver;
use crate::decide::{is_valued, next_open};
use jd_propagate::{NoMemory, Trail};
use std::alloc::Global;

/// The order of the decisions.
#[derive(Drop)]
pub struct Order {
    /// Whether a watched clause names a variable.
    named: Vec<bool>,
    /// The last input decided among those that are named, and among all: those up to there have
    /// values until literals are taken back. They only spare looks.
    last_named: u32,
    last: u32,
}

/// The first input above a given one that is named and has no value.
fn next_named(trail: &Trail, named: &[bool], above: u32, inputs: u32) -> Option<u32>
    requires { inputs < 2 ^ 31 }
    ensures { IfSome result (λ n. (0 < n) × (n ≤ inputs) × (has_value trail.now (pos n) ≡ false)) }
{
    for variable in above..inputs {
        if is_named(named, variable + 1) && !is_valued(trail, variable + 1) {
            return Some(variable + 1);
        }
    }
    None
}

/// Whether a variable is named.
fn is_named(named: &[bool], variable: u32) -> bool {
    match named.get(variable as usize) {
        Some(is) => *is,
        None => false,
    }
}

/// Notes the variables that a clause names.
fn note_clause(named: &mut [bool], clause: &[i32]) {
    for l in clause {
        let variable = l.unsigned_abs() as usize;
        if variable < named.len() {
            named[variable] = true;
        }
    }
}

impl Order {
    /// The order of so many inputs for the clauses that a search watches.
    pub fn new(alloc: Global, solver: &Solver, inputs: u32) -> Result<Order, NoMemory> {
        let mut named = Vec::new(alloc);
        named.resize(inputs as usize + 1, false)?;
        for at in 0..solver.long.len() {
            note_clause(named.as_mut_slice(), solver.long.clause(at));
        }
        Ok(Order {
            named,
            last_named: 0,
            last: 0,
        })
    }

    /// Looks from the last literal's variable on, once the decision on it was taken back and its
    /// negation made true: the named inputs before it had values then.
    pub fn go_back(&mut self, solver: &Solver) {
        self.last_named = match solver.trail.literals().last() {
            Some(l) => l.unsigned_abs(),
            None => 0,
        };
        self.last = 0;
    }

    /// The next input to decide, or None where all have values.
    pub fn next(&mut self, trail: &Trail, inputs: u32) -> Option<u32>
        requires { inputs < 2 ^ 31 }
        ensures { MatchOption result
            ((v : ℕ) → 0 < v → v ≤ inputs → has_value trail.now (pos v) ≡ true)
            (λ n. (0 < n) × (n ≤ inputs) × (has_value trail.now (pos n) ≡ false)) }
    {
        if let Some(variable) = next_named(trail, self.named.as_slice(), self.last_named, inputs) {
            self.last_named = variable;
            return Some(variable);
        }
        self.last_named = inputs;
        if let Some(variable) = next_open(trail, self.last, inputs) {
            self.last = variable;
            return Some(variable);
        }
        // One more look at all inputs, so that nothing rests on where the others began.
        next_open(trail, 0, inputs)
    }
}
