//! Lists of clauses, in two flat lists in place of one a clause.
ghost use Rattle.std.specs.Prelude.{◌≡◌, ◌<◌, ◌==◌, [], ◌∷◌, ◌++◌, length, slice_index, slice_index_or, ◌≤◌, IfOk, OnOk, OnErr};
ghost use Rattle.std.specs.List.{list_any};
ghost use Rattle.jd_logic.specs.Checking.{is_empty};
ghost use Rattle.jd_logic.specs.Literals.{AreLiterals};

use crate::NoMemory;
use std::alloc::Global;
use std::marker::Model;

/// Clauses, whose literals lie one after another.
#[derive(Drop)]
pub struct Clauses {
    literals: Vec<i32>,
    ends: Vec<usize>,
}

impl Model for Clauses {
    ghost use Rattle.std.specs.Prelude.{◌≡◌, List, ℤ, true, length};
    ghost use Rattle.jd_logic.specs.Literals.{AreLiterals};
    ghost use Rattle.jd_lrat.specs.Parts.{parts, is_cut};

    ghost Value = { List (List ℤ) };

    ghost view = { λ c. parts c.literals.items 0 c.ends.items };

    ghost invariant = { λ c. (is_cut 0 c.ends.items (length c.literals.items) ≡ true) × AreLiterals c.literals.items };
}

/// Where the part at a place begins.
fn start_of(ends: &[usize], at: usize) -> usize
    requires { at ≤ length ends.now }
    ensures { result ≡ slice_index (0 ∷ ends.now) at }
{
    if at == 0 { 0 } else { ends[at - 1] }
}

impl Clauses {
    pub fn new(alloc: Global) -> Clauses
        ensures { result ≡ [] }
    {
        Clauses {
            literals: Vec::new(alloc),
            ends: Vec::new(alloc),
        }
    }

    pub fn len(&self) -> usize
        ensures { result ≡ length self.now }
    {
        self.ends.len()
    }

    pub fn is_empty(&self) -> bool
        ensures { result ≡ (length self.now == 0) }
    {
        self.len() == 0
    }

    /// The literals of the clause at a place, counted from 0.
    pub fn clause(&self, at: usize) -> &[i32]
        requires { at < length self.now }
        ensures clause { result.now ≡ slice_index_or self.now at [] }
        ensures range { AreLiterals result.now }
    {
        let from = start_of(self.ends.as_slice(), at);
        let to = self.ends[at];
        &self.literals[from..to]
    }

    /// Whether one of the clauses is empty.
    pub(crate) fn has_empty(&self) -> bool
        ensures { result ≡ list_any is_empty self.now }
    {
        for i in 0..self.len() {
            if self.clause(i).is_empty() {
                return true;
            }
        }
        false
    }

    /// The same clauses once more.
    pub(crate) fn try_clone(&self, alloc: Global) -> Result<Clauses, NoMemory>
        ensures { IfOk result (λ c. c ≡ self.now) }
    {
        let mut literals = Vec::new(alloc);
        literals.extend_from_slice(self.literals.as_slice())?;
        let mut ends = Vec::new(alloc);
        ends.extend_from_slice(self.ends.as_slice())?;
        Ok(Clauses { literals, ends })
    }

    /// Puts a clause at the end. After `NoMemory` the clauses are as before.
    pub fn push(&mut self, clause: &[i32]) -> Result<(), NoMemory>
        requires { AreLiterals clause.now }
        ensures pushed { OnOk result (self.new ≡ self.old ++ clause.now ∷ []) }
        ensures unchanged { OnErr result (self.new ≡ self.old) }
    {
        let from = self.literals.len();
        self.literals.extend_from_slice(clause)?;
        match self.ends.push(self.literals.len()) {
            Ok(()) => Ok(()),
            Err(_) => {
                self.literals.truncate(from);
                Err(NoMemory)
            }
        }
    }
}
