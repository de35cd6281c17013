//! Square roots of magnitudes.
ghost use Rattle.std.specs.Prelude.{◌≡◌, ℕ, ◌+◌, ◌-◌, ◌*◌, ◌^◌, ◌<◌, ◌≤◌, Bool, length, IfOk};
ghost use Rattle.hp_model.specs.WordOperations.{root_of};
ghost use Rattle.jd_circuit.specs.Net.{Grows, Solves, variables};
ghost use Rattle.jd_vectors.specs.Number.{number, AreOf};
ghost use Rattle.jd_rows.specs.Answers.{answer_on, AnswerFits};

use hp_model::Mode;
use jd_circuit::{Circuit, Lit, NoMemory, Rewrite};
use jd_muldiv::root_lits;
use jd_rows::{SymAnswer, is_zero, magnitude};
use jd_vectors::Lits;

/// The root of a word's magnitude.
#[tactic(auto, using(jd_vectors::proofs::Kept::grows_trans))]
pub fn square_root<W: Rewrite>(
    c: &mut Circuit<'_, W>,
    mode: Mode,
    x: &Lits,
) -> Result<SymAnswer, NoMemory>
    requires some { 1 ≤ length x.now }
    requires word { length x.now ≤ 64 }
    requires of { AreOf c.old x.now }
    requires room { length c.old.gates < 2 ^ 30 - 2 ^ 20 }
    ensures fits { IfOk result (AnswerFits (variables c.new) (length x.now)) }
    ensures meaning { IfOk result (λ a. (val : ℕ → Bool) → Solves c.new val
        → answer_on val a ≡ root_of (length x.now) mode (number val x.now)) }
    ensures grows { Grows c.old c.new }
    ensures more { length c.new.gates ≤ length c.old.gates + 8 * length x.now * (length x.now
        + 2) + 10 * length x.now }
{
    let (_sign, magnitude) = magnitude(c, mode, x)?;
    let (pattern, rest) = root_lits(c, &magnitude)?;
    let whole = is_zero(c, &rest)?;
    Ok(SymAnswer {
        pattern,
        carry: Some(whole.opposite()),
        range: Some(Lit::Const(false)),
    })
}
