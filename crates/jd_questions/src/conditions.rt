//! The eight tests of X, or of X and Y, as literals over `jd_comparisons` and `jd_rows`; three are
//! just the opposites of others. The question of a square root, whether X is negative, is answered
//! here too.
ghost use Rattle.std.specs.Prelude.{◌≡◌, ℕ, ◌+◌, ◌^◌, ◌<◌, ◌≤◌, Bool, IfOk, int_lt, length, pos};
ghost use Rattle.hp_model.specs.Words.{value};
ghost use Rattle.hp_model.specs.Questions.{holds_of_test};
ghost use Rattle.hp_ops.specs.Meaning.{condition};
ghost use Rattle.jd_circuit.specs.Meaning.{lit_value};
ghost use Rattle.jd_circuit.specs.Net.{Grows, IsOf, Solves};
ghost use Rattle.jd_vectors.specs.Number.{AreOf, number};

use hp_ops::Test;
use hp_words::Mode;
use jd_circuit::{Circuit, Lit, NoMemory, Rewrite};
use jd_comparisons::{are_equal, is_below};
use jd_rows::zero_test;
use jd_vectors::Lits;

/// Whether the value of a word is below 0.
pub fn is_negative<W: Rewrite>(
    c: &mut Circuit<'_, W>,
    mode: Mode,
    x: &Lits,
) -> Result<Lit, NoMemory>
    requires some { 1 ≤ length x.now }
    requires word { length x.now ≤ 64 }
    requires of { AreOf c.old x.now }
    requires room { length c.old.gates + 1000 < 2 ^ 30 }
    ensures of { IfOk result (IsOf c.new) }
    ensures meaning { IfOk result (λ l. (val : ℕ → Bool) → Solves c.new val
        → lit_value val l ≡ int_lt (value (length x.now) mode (number val x.now)) (pos 0)) }
    ensures grows { Grows c.old c.new }
    ensures more { length c.new.gates ≤ length c.old.gates + 1000 }
{
    let zero = Lits::constant(x.len() as u8, 0);
    let l = is_below(c, mode, x, &zero)?;
    Ok(l)
}

/// Whether the value of a word is above 0.
fn is_positive<W: Rewrite>(c: &mut Circuit<'_, W>, mode: Mode, x: &Lits) -> Result<Lit, NoMemory>
    requires some { 1 ≤ length x.now }
    requires word { length x.now ≤ 64 }
    requires of { AreOf c.old x.now }
    requires room { length c.old.gates + 1000 < 2 ^ 30 }
    ensures of { IfOk result (IsOf c.new) }
    ensures meaning { IfOk result (λ l. (val : ℕ → Bool) → Solves c.new val
        → lit_value val l ≡ int_lt (pos 0) (value (length x.now) mode (number val x.now))) }
    ensures grows { Grows c.old c.new }
    ensures more { length c.new.gates ≤ length c.old.gates + 1000 }
{
    let zero = Lits::constant(x.len() as u8, 0);
    let l = is_below(c, mode, &zero, x)?;
    Ok(l)
}

/// Whether a test of X, and of Y, is true.
pub fn test_literal<W: Rewrite>(
    c: &mut Circuit<'_, W>,
    mode: Mode,
    test: Test,
    y: &Lits,
    x: &Lits,
) -> Result<Lit, NoMemory>
    requires some { 1 ≤ length x.now }
    requires word { length x.now ≤ 64 }
    requires length { length y.now ≡ length x.now }
    requires first { AreOf c.old y.now }
    requires second { AreOf c.old x.now }
    requires room { length c.old.gates + 1000 < 2 ^ 30 }
    ensures of { IfOk result (IsOf c.new) }
    ensures meaning { IfOk result (λ l. (val : ℕ → Bool) → Solves c.new val → lit_value val l
        ≡ holds_of_test (condition test) (value (length x.now) mode (number val x.now)) (value
        (length x.now) mode (number val y.now))) }
    ensures grows { Grows c.old c.new }
    ensures more { length c.new.gates ≤ length c.old.gates + 1000 }
{
    match test {
        Test::AtMostY => {
            let below = is_below(c, mode, y, x)?;
            Ok(below.opposite())
        }
        Test::Negative => is_negative(c, mode, x),
        Test::AboveY => is_below(c, mode, y, x),
        Test::Positive => is_positive(c, mode, x),
        Test::NotY => {
            let equal = are_equal(c, mode, y, x)?;
            Ok(equal.opposite())
        }
        Test::NotZero => {
            let zero = zero_test(c, mode, x)?;
            Ok(zero.opposite())
        }
        Test::EqualY => are_equal(c, mode, y, x),
        Test::Zero => {
            let zero = zero_test(c, mode, x)?;
            Ok(zero)
        }
    }
}
