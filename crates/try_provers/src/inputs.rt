//! A search must be told how many inputs decide the clauses, which DIMACS text doesn't say. The
//! greatest variable will do, since every variable is an input then.
ghost use Rattle.std.specs.Prelude.{◌≡◌, ℕ, ℤ, ◌<◌, ◌≤◌, [], length, nat_abs, slice_index_or};
ghost use Rattle.jd_logic.specs.Literals.{AreLiterals};
ghost use Rattle.jd_proving.specs.Proving.{AreDecided};
ghost use Rattle.jd_propagate.specs.Quiet.{IsIn};

use jd_lrat::Clauses;

/// The magnitude of a literal, or a number where that is greater.
fn greater(l: i32, least: u32) -> u32
    ensures kept { least ≤ result }
    ensures greater { nat_abs l ≤ result }
{
    l.unsigned_abs().max(least)
}

/// The greatest variable of a clause, or a number where that is greater.
fn greatest_in(clause: &[i32], least: u32) -> u32
    ensures kept { least ≤ result }
    ensures all { (l : ℤ) → IsIn clause.now l → nat_abs l ≤ result }
{
    let mut greatest = least;
    for l in clause {
        greatest = greater(*l, greatest);
    }
    greatest
}

/// The greatest variable of clauses: with so many inputs their values decide all.
pub fn inputs_of(clauses: &Clauses) -> u32
    ensures { AreDecided clauses.now result }
{
    let mut greatest = 0;
    for at in 0..clauses.len() {
        greatest = greatest_in(clauses.clause(at), greatest);
    }
    greatest
}
