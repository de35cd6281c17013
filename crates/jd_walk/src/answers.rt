//! The calls by which the judge and the check drive a walk. A question answered with no is kept
//! with its machine and a mark of the circuit, so that going back takes no memory and adds no gate.
ghost use Rattle.std.specs.Prelude.{◌≡◌, ◌<◌, ◌≤◌, ◌∷◌, ◌++◌, [], false, true, Some, None, Ok, OnOk, OnErr, IfOk, length, take, is_some};
ghost use Rattle.jd_circuit.specs.Net.{Grows};
ghost use Rattle.jd_books.specs.Paths.{next_path};
ghost use Rattle.jd_walk.specs.Spots.{back_to};
ghost use Rattle.jd_walk.specs.Walked.{NextIs, answered, back_from, has_asked, most_gates};
ghost use Rattle.jd_walk.specs.declared.places.Next.{Next};
ghost use Rattle.jd_walk.specs.declared.places.Next.TheVariants.{Ask};

use crate::places::{FirstEnd, Next, Saved};
use crate::runs::{Position, find_next};
use crate::walks::Walk;
use jd_circuit::{Lit, Mark, NoMemory, Rewrite};
use std::alloc::Global;

/// Cuts a path at a place, where yes then stands last.
fn end_path(path: &mut Vec<bool>, at: usize)
    requires { at < length path.old.items }
    ensures { path.new.items ≡ take at path.old.items ++ true ∷ [] }
{
    path[at] = true;
    path.truncate(at + 1);
}

/// Cuts guards at a place, where this one then stands last.
fn end_guards(guards: &mut Vec<Lit>, at: usize, last: Lit)
    requires { at < length guards.old.items }
    ensures { guards.new.items ≡ take at guards.old.items ++ last ∷ [] }
{
    guards[at] = last;
    guards.truncate(at + 1);
}

/// The first run's end, if the first run was over at a place.
fn over_at(first: Option<FirstEnd>, at: usize) -> Option<FirstEnd>
    ensures { result ≡ back_to at first }
{
    match first {
        None => None,
        Some(first) => { if first.path <= at { Some(first) } else { None } }
    }
}

/// Keeps where the walk stands at a question.
fn save(
    alloc: Global,
    saved: &mut Vec<Saved>,
    path: &[bool],
    ask: Lit,
    mark: Mark,
    position: &Position,
) -> Result<(), NoMemory>
    ensures { OnOk result (saved.new.items ≡ saved.old.items ++ record { at = length path.now; ask = ask; mark = mark; position = position.now } ∷ []) }
{
    let machine = position.machine.copy(alloc)?;
    let now = Saved {
        at: path.len(),
        ask,
        mark,
        position: Position {
            machine,
            left: position.left,
            from: position.from,
        },
    };
    saved.push(now)?;
    Ok(())
}

impl<'r, W: Rewrite> Walk<'r, W> {
    /// Cuts the path back to its last no, which becomes yes, and the circuit and the guards to those
    /// that stood there. False exactly where the path has no no, and then nothing changes. Takes no
    /// memory.
    pub fn back(&mut self) -> bool
        requires unspent { self.old.spent ≡ false }
        ensures walk { self.new ≡ back_from self.old }
        ensures back { result ≡ is_some (next_path self.old.path) }
    {
        let Some(saved) = self.saved.pop() else {
            return false;
        };
        let Saved {
            at,
            ask,
            mark,
            position,
        } = saved;
        self.circuit.back_to(mark);
        end_path(&mut self.path, at);
        end_guards(&mut self.guards, at, ask);
        let first = self.first.take();
        self.first = over_at(first, at);
        self.at = position;
        self.next = None;
        true
    }

    /// Answers the question with yes. While memory is taken the walk is spent.
    fn say_yes(&mut self, ask: Lit) -> Result<(), NoMemory>
        requires unspent { self.old.spent ≡ false }
        requires asked { self.old.next ≡ Some (Ask ask) }
        ensures walk { OnOk result (self.new ≡ answered self.old true) }
        ensures spent { OnErr result (self.new.spent ≡ true) }
    {
        self.spent = true;
        self.guards.push(ask)?;
        self.path.push(true)?;
        self.next = None;
        self.spent = false;
        Ok(())
    }

    /// Answers the question with no, and keeps where it was asked.
    fn say_no(&mut self, ask: Lit) -> Result<(), NoMemory>
        requires unspent { self.old.spent ≡ false }
        requires asked { self.old.next ≡ Some (Ask ask) }
        ensures walk { OnOk result (self.new ≡ answered self.old false) }
        ensures spent { OnErr result (self.new.spent ≡ true) }
    {
        self.spent = true;
        save(
            self.alloc,
            &mut self.saved,
            self.path.as_slice(),
            ask,
            self.circuit.mark(),
            &self.at,
        )?;
        self.guards.push(ask.opposite())?;
        self.path.push(false)?;
        self.next = None;
        self.spent = false;
        Ok(())
    }

    /// Answers the question that the last `next` asked. After NoMemory the walk is spent: this and
    /// `next` answer NoMemory from then on.
    pub fn answer(&mut self, yes: bool) -> Result<(), NoMemory>
        requires asked { has_asked self.old.next ≡ true }
        ensures walk { OnOk result (self.new ≡ answered self.old yes) }
        ensures unspent { OnOk result (self.old.spent ≡ false) }
        ensures spent { OnErr result (self.new.spent ≡ true) }
    {
        if self.spent {
            return Err(NoMemory);
        }
        let Some(Next::Ask(ask)) = self.next else {
            unreachable!()
        };
        if yes {
            self.say_yes(ask)
        } else {
            self.say_no(ask)
        }
    }

    /// Goes on to the next question, or to the place where both runs have ended or are late. A second
    /// call in the same place says the same and adds no gate. After NoMemory the walk is spent. There
    /// are fewer than 2^29 gates after it, so that NoMemory never comes of their number.
    pub fn next(&mut self) -> Result<Next, NoMemory>
        ensures walk { IfOk result (λ n. self.new ≡ record self.old { net = self.new.net; next = Some n }) }
        ensures grows { OnOk result (Grows self.old.net self.new.net) }
        ensures few { OnOk result (self.old.next ≡ None → length self.new.net.gates ≤ most_gates self.new.problem) }
        ensures said { IfOk result (NextIs self.new) }
        ensures unspent { OnOk result (self.old.spent ≡ false) }
        ensures again { (n : Next) → self.old.spent ≡ false → self.old.next ≡ Some n → (result ≡ Ok n) × (self.new ≡ self.old) }
        ensures spent { OnErr result (self.new.spent ≡ true) }
    {
        if self.spent {
            return Err(NoMemory);
        }
        if let Some(next) = self.next {
            return Ok(next);
        }
        self.spent = true;
        let next = find_next(
            self.alloc,
            &mut self.circuit,
            &self.problem,
            self.path.as_slice(),
            &mut self.first,
            &mut self.at,
            &mut self.last,
        )?;
        self.next = Some(next);
        self.spent = false;
        Ok(next)
    }
}
