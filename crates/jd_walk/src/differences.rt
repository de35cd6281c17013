//! Literals that say of both ends what is asked of them, in place of the one that `next` gives: a walk
//! makes such a literal where both runs are over, and the leaf with it.
ghost use Rattle.std.specs.Prelude.{◌≡◌, ◌<◌, ◌≤◌, ◌+◌, ◌^◌, ℕ, Bool, true, false, length, IfOk, OnOk, OnErr, Option, IsTrue, ◌↔◌};
ghost use Rattle.hp_model.specs.State.{Data};
ghost use Rattle.jd_circuit.specs.Meaning.{lit_value};
ghost use Rattle.jd_circuit.specs.Net.{Grows, IsLit, IsOf, IsWired, Solves, eval, variables};
ghost use Rattle.jd_model.specs.Problems.{bits, in_range};
ghost use Rattle.jd_model.specs.Seen.{Seen, seen};
ghost use Rattle.jd_problem.specs.Problems.{problem_of};
ghost use Rattle.jd_content.specs.Meaning.{Fits, data_on};
ghost use Rattle.jd_books.specs.Walks.{seen_as};
ghost use Rattle.jd_difference.specs.Ends.{IsOfRun};
ghost use Rattle.jd_leaves.specs.Views.{leaf_of};
ghost use Rattle.jd_symbolic.specs.Machine.{Stands};
ghost use Rattle.jd_walk.specs.Leaves.{IsLeafWith};
ghost use Rattle.jd_walk.specs.Spots.{IsFor, data_at};
ghost use Rattle.jd_walk.specs.SymEnds.{IsEndOf, seen_on, sym_end_of};
ghost use Rattle.jd_walk.specs.Walked.{WhereGuarded, is_done};

use crate::begins::begun;
use crate::leaves::joined_guards;
use crate::places::{RunEnd, SymEnd};
use crate::runs::Position;
use crate::walks::Walk;
use hp_model::End;
use jd_circuit::{Circuit, Lit, NoMemory, Rewrite};
use jd_content::SymContent;
use jd_leaves::{Kind, Leaf, Path};
use jd_problem::Problem;
use std::alloc::Global;

/// What is asked of both runs' ends, as the literal that is true where it isn't so.
pub trait Difference {
    ghost use Rattle.std.specs.Prelude.{◌≡◌, ◌<◌, ◌≤◌, ◌+◌, ◌^◌, ℕ, Bool, length, IfOk};
    ghost use Rattle.hp_model.specs.State.{Data};
    ghost use Rattle.jd_circuit.specs.Meaning.{lit_value};
    ghost use Rattle.jd_circuit.specs.Net.{Grows, IsOf, Solves, variables};
    ghost use Rattle.jd_model.specs.Seen.{Seen};
    ghost use Rattle.jd_content.specs.Meaning.{Fits, data_on};
    ghost use Rattle.jd_walk.specs.SymEnds.{IsEndOf, seen_on};

    /// Whether what is seen of both runs from a start differs.
    ghost differs: { Self → Data → Seen → Seen → Bool };

    /// The word size of the starts.
    ghost size: { Self → ℕ };

    /// The literal that is true exactly where there is a difference, from the literals of a start and
    /// of both ends.
    fn literal<W: Rewrite>(
        &self,
        c: &mut Circuit<'_, W>,
        start: &SymContent,
        first: &SymEnd,
        second: &SymEnd,
    ) -> Result<Lit, NoMemory>
        requires start { Fits (variables c.old) (size self.now) start.now }
        requires first { IsEndOf c.old first.now }
        requires second { IsEndOf c.old second.now }
        requires room { length c.old.gates < 2 ^ 29 }
        ensures of { IfOk result (IsOf c.new) }
        ensures means { IfOk result (λ l. (val : ℕ → Bool) → Solves c.new val
            → lit_value val l ≡ differs self.now (data_on val start.now) (seen_on val first.now) (seen_on val second.now)) }
        ensures grows { Grows c.old c.new }
        ensures more { length c.new.gates ≤ length c.old.gates + 2 ^ 27 };
}

/// What a run ends with, in memory of its own.
fn sym_end(alloc: Global, end: Option<End>, content: &SymContent) -> Result<SymEnd, NoMemory>
    ensures { IfOk result (λ e. e ≡ sym_end_of end content.now) }
{
    match end {
        None => Ok(SymEnd::Late),
        Some(end) => {
            let content = content.copy(alloc)?;
            Ok(SymEnd::Ended(end, content))
        }
    }
}

/// Whether a circuit has room for the gates of a difference.
fn has_room<W: Rewrite>(c: &Circuit<'_, W>) -> bool
    ensures { IsTrue result ↔ (length c.now.gates < 2 ^ 29) }
{
    c.mark().gates < 1 << 29
}

/// The literal of a difference where both runs are over.
fn literal_at<W: Rewrite, D: Difference>(
    alloc: Global,
    c: &mut Circuit<'_, W>,
    problem: &Problem,
    first: &RunEnd,
    at: &Position,
    last: Option<End>,
    difference: &D,
) -> Result<Lit, NoMemory>
    requires inputs { IsFor (problem_of problem.now) c.old }
    requires size { D.size difference.now ≡ (problem_of problem.now).size }
    requires first { IsOfRun (problem_of problem.now) c.old first.now.content }
    requires stands { Stands c.old at.now.machine }
    ensures of { IfOk result (IsOf c.new) }
    ensures means { IfOk result (λ l. (s : Data) → in_range (problem_of problem.now) s ≡ true
        → eval c.new (bits (problem_of problem.now) s) l ≡ D.differs difference.now s
        (seen_as first.now.end (data_at (problem_of problem.now) c.new first.now.content s))
        (seen_as last (data_at (problem_of problem.now) c.new at.now.machine.content s))) }
    ensures grows { Grows c.old c.new }
    ensures more { length c.new.gates ≤ length c.old.gates + 2 ^ 27 }
    ensures few { OnOk result (length c.new.gates ≤ 2 ^ 29 + 2 ^ 27) }
{
    if !has_room(c) {
        return Err(NoMemory);
    }
    let start = begun(alloc, c, problem, false)?;
    let one = sym_end(alloc, first.end, &first.content)?;
    let other = sym_end(alloc, last, &at.machine.content)?;
    let l = difference.literal(c, &start.content, &one, &other)?;
    // `mark` tells that the circuit is wired.
    let _ = c.mark();
    Ok(l)
}

impl<'r, W: Rewrite> Walk<'r, W> {
    /// The literal of a difference, where the last `next` said Done and neither `answer` nor `back`
    /// came since. After NoMemory the walk is spent. NoMemory answers a circuit of 2^29 gates too:
    /// after `next` there are fewer, and so many only where differences of this place took the rest.
    pub fn done_with<D: Difference>(&mut self, difference: &D) -> Result<Lit, NoMemory>
        requires unspent { self.old.spent ≡ false }
        requires done { is_done self.old.next ≡ true }
        requires size { D.size difference.now ≡ self.old.problem.size }
        ensures walk { OnOk result (self.new ≡ record self.old { net = self.new.net }) }
        ensures grows { OnOk result (Grows self.old.net self.new.net) }
        ensures more { OnOk result (length self.new.net.gates ≤ length self.old.net.gates + 2 ^ 27) }
        ensures inside { IfOk result (IsLit (variables self.new.net)) }
        ensures means { IfOk result (λ l. WhereGuarded self.new (λ s. eval self.new.net (bits self.new.problem s) l
            ≡ D.differs difference.now s (seen self.new.problem self.new.problem.first s) (seen self.new.problem self.new.problem.second s))) }
        ensures spent { OnErr result (self.new.spent ≡ true) }
    {
        self.spent = true;
        match &self.first {
            None => unreachable!(),
            Some(first) => {
                let l = literal_at(
                    self.alloc,
                    &mut self.circuit,
                    &self.problem,
                    &first.run,
                    &self.at,
                    self.last,
                    difference,
                )?;
                self.spent = false;
                Ok(l)
            }
        }
    }

    /// The whole leaf of the walk's path with a difference that `done_with` gave, where neither
    /// `next`, `answer` nor `back` came since. It has all gates of the walk's circuit.
    pub fn leaf_with(&self, diff: Lit) -> Result<Leaf, NoMemory>
        requires unspent { self.now.spent ≡ false }
        requires done { is_done self.now.next ≡ true }
        requires inside { IsLit (variables self.now.net) diff }
        ensures { IfOk result (λ l. IsLeafWith self.now diff (leaf_of l)) }
    {
        Ok(Leaf {
            path: Path::of(self.alloc, self.path.as_slice())?,
            inputs: self.problem.free_bits(),
            gates: self.circuit.gates()?,
            guards: joined_guards(self.alloc, self.assumed.as_slice(), self.guards.as_slice())?,
            diff,
            kind: Kind::Whole,
        })
    }
}
