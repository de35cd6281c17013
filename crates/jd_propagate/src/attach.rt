//! How a clause given or a learned line comes to be watched: it goes behind the other clauses and
//! into the lists of two literals. Each of its literals gets a list, so that propagation can watch
//! any later.
ghost use Rattle.std.specs.Prelude.{◌≡◌, ◌≢◌, ℕ, ℤ, ◌+◌, ◌<◌, ◌≤◌, ◌++◌, ◌∷◌, [], MatchBool, MatchOption, OnOk, length};
ghost use Rattle.jd_logic.specs.Literals.{AreLiterals};
ghost use Rattle.jd_propagate.specs.Lists.{list_at};
ghost use Rattle.jd_propagate.specs.Passing.{AreWatched};
ghost use Rattle.jd_propagate.specs.Quiet.{IsIn};
ghost use Rattle.jd_propagate.specs.Trails.{key_of};
ghost use Rattle.jd_propagate.specs.Watched.{IsPair};

use crate::lists::add;
use crate::trail::key;
use crate::{Clauses, NoMemory};
use std::alloc::Global;

/// Whether two literals aren't the same.
fn differ(l: i32, m: i32) -> bool
    ensures { MatchBool result (l ≢ m) (l ≡ m) }
{
    l != m
}

/// The first literal of a clause that isn't a given one.
pub fn other_than(clause: &[i32], first: i32) -> Option<i32>
    requires { AreLiterals clause.now }
    ensures { MatchOption result
        ((l : ℤ) → IsIn clause.now l → l ≡ first)
        (λ l. IsIn clause.now l × (l ≢ first)) }
{
    for l in clause {
        if differ(*l, first) {
            return Some(*l);
        }
    }
    None
}

/// Makes so many lists, where there are fewer; the new ones are empty.
fn make_room(alloc: Global, lists: &mut Vec<Vec<usize>>, count: usize) -> Result<(), NoMemory>
    ensures same { (k : ℕ) → list_at lists.new.items k ≡ list_at lists.old.items k }
    ensures longer { length lists.old.items ≤ length lists.new.items }
    ensures room { OnOk result (count ≤ length lists.new.items) }
{
    'room: while lists.len() < count {
        lists.push(Vec::new(alloc))?;
    }
    Ok(())
}

/// Makes a list for each literal of a clause, where it has none.
fn make_rooms(alloc: Global, lists: &mut Vec<Vec<usize>>, clause: &[i32]) -> Result<(), NoMemory>
    requires { AreLiterals clause.now }
    ensures same { (k : ℕ) → list_at lists.new.items k ≡ list_at lists.old.items k }
    ensures longer { length lists.old.items ≤ length lists.new.items }
    ensures room { OnOk result ((l : ℤ) → IsIn clause.now l → key_of l < length lists.new.items) }
{
    for l in clause {
        make_room(alloc, lists, key(*l) + 1)?;
    }
    Ok(())
}

/// Puts a clause at the end, and watches two of its literals.
pub fn watch(
    alloc: Global,
    clauses: &mut Clauses,
    firsts: &mut Vec<i32>,
    seconds: &mut Vec<i32>,
    lists: &mut Vec<Vec<usize>>,
    clause: &[i32],
    a: i32,
    b: i32,
) -> Result<(), NoMemory>
    requires watched { AreWatched clauses.old firsts.old.items seconds.old.items lists.old.items }
    requires literals { AreLiterals clause.now }
    requires pair { IsPair clause.now a b }
    ensures clauses { OnOk result (clauses.new ≡ clauses.old ++ clause.now ∷ []) }
    ensures firsts { OnOk result (firsts.new.items ≡ firsts.old.items ++ a ∷ []) }
    ensures seconds { OnOk result (seconds.new.items ≡ seconds.old.items ++ b ∷ []) }
    ensures watched { OnOk result (AreWatched clauses.new firsts.new.items seconds.new.items lists.new.items) }
{
    let at = clauses.len();
    make_rooms(alloc, lists, clause)?;
    clauses.push(clause)?;
    firsts.push(a)?;
    seconds.push(b)?;
    add(lists, key(a), at)?;
    add(lists, key(b), at)?;
    Ok(())
}
