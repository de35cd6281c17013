//! Words moved by one place, which adds no gate; the bit that leaves the word is the carry.
ghost use Rattle.std.specs.Prelude.{◌≡◌, ℕ, ◌+◌, ◌-◌, ◌*◌, ◌/◌, ◌%◌, ◌^◌, ◌<◌, ◌≤◌, Bool, length};
ghost use Rattle.hp_model.specs.Words.{bit};
ghost use Rattle.hp_model.specs.Operations.{left, right, left_carry, right_carry};
ghost use Rattle.hp_model.specs.WordOperations.{carrying, bit_number, top_bit, shifted_left_of, shifted_right_of, shifted_arithmetic_of, rotated_of};
ghost use Rattle.jd_circuit.specs.Meaning.{lit_value};
ghost use Rattle.jd_circuit.specs.Net.{IsLit};
ghost use Rattle.jd_vectors.specs.Number.{number, Inside};
ghost use Rattle.jd_rows.specs.Answers.{answer_on, AnswerFits};
ghost use Rattle.jd_places.specs.Shifts.{sign_of};

use hp_model::Mode;
use jd_circuit::Lit;
use jd_rows::SymAnswer;
use jd_vectors::Lits;

/// One place up, with a literal in the lowest place; the highest is the carry.
fn up(x: &Lits, fill: Lit) -> SymAnswer
    requires some { 1 ≤ length x.now }
    ensures meaning { (val : ℕ → Bool) → answer_on val result
        ≡ carrying (2 * number val x.now % 2 ^ length x.now
        + bit_number (lit_value val fill)) (top_bit (length x.now) (number val x.now)) }
    ensures fits { (n : ℕ) → Inside n x.now → IsLit n fill → AnswerFits n (length x.now) result }
{
    let size = x.len();
    let carry = x.at(size - 1);
    let pattern = x.part(0, size - 1).above(fill);
    SymAnswer {
        pattern,
        carry: Some(carry),
        range: None,
    }
}

/// One place down, with a literal in the highest place; the lowest is the carry.
fn down(x: &Lits, fill: Lit) -> SymAnswer
    requires some { 1 ≤ length x.now }
    ensures meaning { (val : ℕ → Bool) → answer_on val result
        ≡ carrying (number val x.now / 2
        + bit_number (lit_value val fill) * 2 ^ (length x.now - 1)) (bit (number val x.now) 0) }
    ensures fits { (n : ℕ) → Inside n x.now → IsLit n fill → AnswerFits n (length x.now) result }
{
    let size = x.len();
    let carry = x.at(0);
    let mut pattern = x.part(1, size);
    pattern.push(fill);
    SymAnswer {
        pattern,
        carry: Some(carry),
        range: None,
    }
}

/// The highest literal.
fn highest(x: &Lits) -> Lit
    requires { 1 ≤ length x.now }
    ensures of { (n : ℕ) → Inside n x.now → IsLit n result }
    ensures meaning { (val : ℕ → Bool)
        → lit_value val result ≡ top_bit (length x.now) (number val x.now) }
{
    x.at(x.len() - 1)
}

/// The lowest literal.
fn lowest(x: &Lits) -> Lit
    requires { 1 ≤ length x.now }
    ensures of { (n : ℕ) → Inside n x.now → IsLit n result }
    ensures meaning { (val : ℕ → Bool) → lit_value val result ≡ bit (number val x.now) 0 }
{
    x.at(0)
}

/// The word moved up one place, with 0 in the lowest: SL of the HP-16C.
pub fn shifted_left(x: &Lits) -> SymAnswer
    requires { 1 ≤ length x.now }
    ensures meaning { (val : ℕ → Bool)
        → answer_on val result ≡ shifted_left_of (length x.now) (number val x.now) }
    ensures fits { (n : ℕ) → Inside n x.now → AnswerFits n (length x.now) result }
{
    up(x, Lit::Const(false))
}

/// The word moved down one place, with 0 in the highest: SR of the HP-16C.
pub fn shifted_right(x: &Lits) -> SymAnswer
    requires { 1 ≤ length x.now }
    ensures meaning { (val : ℕ → Bool)
        → answer_on val result ≡ shifted_right_of (number val x.now) }
    ensures fits { (n : ℕ) → Inside n x.now → AnswerFits n (length x.now) result }
{
    down(x, Lit::Const(false))
}

/// The literal that comes in at the top of an arithmetic shift.
fn sign_literal(mode: Mode, x: &Lits) -> Lit
    requires { 1 ≤ length x.now }
    ensures of { (n : ℕ) → Inside n x.now → IsLit n result }
    ensures meaning { (val : ℕ → Bool)
        → lit_value val result ≡ sign_of (length x.now) mode (number val x.now) }
{
    match mode {
        Mode::Unsigned => Lit::Const(false),
        Mode::Ones => highest(x),
        Mode::Twos => highest(x),
    }
}

/// The word moved down one place, with the sign, 0 in unsigned mode, in the highest: ASR of the HP-16C.
pub fn shifted_arithmetic(mode: Mode, x: &Lits) -> SymAnswer
    requires { 1 ≤ length x.now }
    ensures meaning { (val : ℕ → Bool)
        → answer_on val result ≡ shifted_arithmetic_of (length x.now) mode (number val x.now) }
    ensures fits { (n : ℕ) → Inside n x.now → AnswerFits n (length x.now) result }
{
    down(x, sign_literal(mode, x))
}

/// The word moved up one place, with its highest bit in the lowest: RL of the HP-16C.
pub fn rotated_left(x: &Lits) -> SymAnswer
    requires { 1 ≤ length x.now }
    ensures meaning { (c : Bool) (val : ℕ → Bool)
        → answer_on val result ≡ rotated_of left (length x.now) (number val x.now) c }
    ensures fits { (n : ℕ) → Inside n x.now → AnswerFits n (length x.now) result }
{
    up(x, highest(x))
}

/// The word moved down one place, with its lowest bit in the highest: RR of the HP-16C.
pub fn rotated_right(x: &Lits) -> SymAnswer
    requires { 1 ≤ length x.now }
    ensures meaning { (c : Bool) (val : ℕ → Bool)
        → answer_on val result ≡ rotated_of right (length x.now) (number val x.now) c }
    ensures fits { (n : ℕ) → Inside n x.now → AnswerFits n (length x.now) result }
{
    down(x, lowest(x))
}

/// The word moved up one place, with the carry in the lowest: RLC of the HP-16C.
pub fn rotated_left_with_carry(x: &Lits, carry: Lit) -> SymAnswer
    requires { 1 ≤ length x.now }
    ensures meaning { (val : ℕ → Bool)
        → answer_on val result
        ≡ rotated_of left_carry (length x.now) (number val x.now) (lit_value val carry) }
    ensures fits { (n : ℕ) → Inside n x.now → IsLit n carry → AnswerFits n (length x.now) result }
{
    up(x, carry)
}

/// The word moved down one place, with the carry in the highest: RRC of the HP-16C.
pub fn rotated_right_with_carry(x: &Lits, carry: Lit) -> SymAnswer
    requires { 1 ≤ length x.now }
    ensures meaning { (val : ℕ → Bool)
        → answer_on val result
        ≡ rotated_of right_carry (length x.now) (number val x.now) (lit_value val carry) }
    ensures fits { (n : ℕ) → Inside n x.now → IsLit n carry → AnswerFits n (length x.now) result }
{
    down(x, carry)
}
