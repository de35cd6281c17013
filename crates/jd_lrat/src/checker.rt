//! The checker of lines: the clauses by id, the marks of the derivation at hand, and whether the
//! empty clause was there. A line that isn't right changes nothing.
ghost use Rattle.std.specs.Prelude.{◌≡◌, ℕ, ◌<◌, [], false, OnOk, IfOk};
ghost use Rattle.jd_logic.specs.Literals.{AreLiterals, AreHints, AreIds};
ghost use Rattle.jd_logic.specs.Checking.{begun, with_clause};
ghost use Rattle.jd_logic.specs.declared.Line.TheVariants.{Derive, Delete};
ghost use Rattle.jd_lrat.specs.Answers.{Answers};
ghost use Rattle.jd_lrat.specs.LineTexts.{HasRanges, line_in};

use crate::derivation::fault;
use crate::line_text::{Head, Lists};
use crate::marks::Marks;
use crate::store::Store;
use crate::{Clauses, LineFault, NoMemory};
use jd_logic::{BadLine, Line};
use std::alloc::Global;
use std::marker::Model;

/// Clauses by their ids, to which the lines of an LRAT proof are applied.
#[derive(Drop)]
pub struct Checker {
    store: Store,
    marks: Marks,
    refuted: bool,
    spent: bool,
}

impl Model for Checker {
    ghost use Rattle.jd_lrat.specs.Kept.{Checking, checking_of};

    ghost Value = { Checking };

    ghost view = { λ c. checking_of c.store c.refuted c.spent };
}

impl Checker {
    /// Whether the empty clause was given or derived. Its deletion doesn't undo that.
    pub fn refuted(&self) -> bool
        ensures { result ≡ self.now.state.refuted }
    {
        self.refuted
    }

    /// Puts a clause in, with an id of its own.
    fn give(&mut self, id: u64, clause: &[i32]) -> Result<(), NoMemory>
        requires fresh { self.old.state.greatest < id }
        requires unspent { self.old.spent ≡ false }
        requires literals { AreLiterals clause.now }
        ensures { OnOk result (self.new ≡ record { state = with_clause self.old.state id clause.now; spent = false }) }
    {
        self.store.push(id, clause)?;
        if clause.is_empty() {
            self.refuted = true;
        }
        Ok(())
    }

    /// Applies a derivation.
    fn derive(&mut self, id: u64, clause: &[i32], hints: &[i64]) -> Result<(), LineFault>
        requires fresh { self.old.spent ≡ false }
        requires literals { AreLiterals clause.now }
        requires hints_in { AreHints hints.now }
        ensures { Answers self.old (Derive id clause.now hints.now) result self.new }
    {
        let found = match fault(&self.store, &mut self.marks, id, clause, hints) {
            Ok(found) => found,
            Err(_) => {
                self.spent = true;
                return Err(LineFault::NoMemory);
            }
        };
        match found {
            Some(cause) => Err(LineFault::Bad(cause)),
            None => match self.give(id, clause) {
                Ok(()) => Ok(()),
                Err(_) => {
                    self.spent = true;
                    Err(LineFault::NoMemory)
                }
            },
        }
    }

    /// Applies a deletion.
    fn delete(&mut self, ids: &[u64]) -> Result<(), LineFault>
        requires fresh { self.old.spent ≡ false }
        requires ids_in { AreIds ids.now }
        ensures { Answers self.old (Delete ids.now) result self.new }
    {
        match self.store.delete(ids) {
            None => Ok(()),
            Some(id) => Err(LineFault::Bad(BadLine::NoClause(id as i64))),
        }
    }

    /// Applies a line, or changes nothing where it isn't right. Once memory ran out the checker is
    /// spent: every later line is answered `NoMemory`.
    pub fn line(&mut self, line: &Line) -> Result<(), LineFault>
        ensures { Answers self.old line.now result self.new }
    {
        if self.spent {
            return Err(LineFault::NoMemory);
        }
        match line {
            Line::Derive { id, clause, hints } => {
                self.derive(*id, clause.literals(), hints.hints())
            }
            Line::Delete { ids } => self.delete(ids.ids()),
        }
    }

    /// Applies the line that lists hold, as `line` does.
    pub(crate) fn take(&mut self, head: Head, lists: &Lists) -> Result<(), LineFault>
        requires { HasRanges head lists.now }
        ensures { Answers self.old (line_in head lists.now) result self.new }
    {
        if self.spent {
            return Err(LineFault::NoMemory);
        }
        match head {
            Head::Derive(id) => self.derive(id, lists.literals.as_slice(), lists.hints.as_slice()),
            Head::Delete => self.delete(lists.ids.as_slice()),
        }
    }

    /// A checker that keeps these clauses, with no copy of them; their ids are 1, 2 and so on.
    pub fn of_clauses(alloc: Global, clauses: Clauses) -> Result<Checker, NoMemory>
        ensures { IfOk result (λ c. c ≡ record { state = begun clauses; spent = false }) }
    {
        let refuted = clauses.has_empty();
        Ok(Checker {
            store: Store::of_clauses(alloc, clauses)?,
            marks: Marks::new(alloc),
            refuted,
            spent: false,
        })
    }

    /// A checker with these clauses, whose ids are 1, 2 and so on.
    pub fn new(alloc: Global, clauses: &Clauses) -> Result<Checker, NoMemory>
        ensures { IfOk result (λ c. c ≡ record { state = begun clauses.now; spent = false }) }
    {
        Checker::of_clauses(alloc, clauses.try_clone(alloc)?)
    }
}
