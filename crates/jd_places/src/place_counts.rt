//! Numbers of places in words.
ghost use Rattle.std.specs.Prelude.{◌≡◌, ℕ, ◌+◌, ◌-◌, ◌*◌, ◌^◌, ◌<◌, ◌≤◌, Bool, length, IfOk};
ghost use Rattle.hp_model.specs.Words.{magnitude};
ghost use Rattle.hp_model.specs.WordOperations.{ones_below, plain};
ghost use Rattle.jd_circuit.specs.Meaning.{lit_value};
ghost use Rattle.jd_circuit.specs.Net.{IsOf, Grows, Solves, variables};
ghost use Rattle.jd_vectors.specs.Number.{number, AreOf};
ghost use Rattle.jd_rows.specs.Answers.{answer_on, AnswerFits};

use crate::masks::count_of_ones;
use hp_model::Mode;
use jd_circuit::{Circuit, NoMemory, Rewrite};
use jd_rows::{SymAnswer, magnitude};
use jd_vectors::Lits;

/// A word's magnitude as a number of places, where it isn't above the word size.
pub fn places_of<W: Rewrite>(c: &mut Circuit<'_, W>, mode: Mode, x: &Lits) -> Result<Lits, NoMemory>
    requires some { 1 ≤ length x.now }
    requires word { length x.now ≤ 64 }
    requires of { AreOf c.old x.now }
    requires room { length c.old.gates + 8 * length x.now < 2 ^ 30 }
    ensures length { IfOk result (λ r. length r ≡ 8) }
    ensures of { IfOk result (AreOf c.new) }
    ensures number { IfOk result (λ r. (val : ℕ → Bool) → Solves c.new val
        → magnitude (length x.now) mode (number val x.now) ≤ length x.now
        → number val r ≡ magnitude (length x.now) mode (number val x.now)) }
    ensures grows { Grows c.old c.new }
    ensures more { length c.new.gates ≤ length c.old.gates + 8 * length x.now }
{
    let (_sign, magnitude) = magnitude(c, mode, x)?;
    Ok(magnitude.resized(8))
}

/// #B as a word.
pub fn ones_of<W: Rewrite>(c: &mut Circuit<'_, W>, x: &Lits) -> Result<SymAnswer, NoMemory>
    requires some { 1 ≤ length x.now }
    requires word { length x.now ≤ 64 }
    requires of { AreOf c.old x.now }
    requires room { length c.old.gates < 2 ^ 30 - 2 ^ 18 }
    ensures fits { IfOk result (AnswerFits (variables c.new) (length x.now)) }
    ensures meaning { IfOk result (λ a. (val : ℕ → Bool) → Solves c.new val
        → answer_on val a ≡ plain (ones_below (length x.now) (number val x.now))) }
    ensures grows { Grows c.old c.new }
    ensures more { length c.new.gates ≤ length c.old.gates + 40 * length x.now }
{
    let count = count_of_ones(c, x)?;
    let pattern = count.resized(x.len());
    Ok(SymAnswer::plain(pattern))
}
