//! The way from numbers to literals and back: `numbers` makes its words of constants and reads the
//! answers back, and `free` takes a word of inputs, whose bits aren't known.
ghost use Rattle.std.specs.Prelude.{◌≡◌, ℕ, ◌+◌, ◌≤◌, length};
ghost use Rattle.jd_vectors.specs.Number.{Inside};

use jd_circuit::Lit;
use jd_vectors::Lits;

/// The lowest bits of a number.
pub fn word(size: usize, number: u128) -> Lits
    requires { size ≤ 128 }
    ensures length { length result ≡ size }
    ensures inside { (n : ℕ) → Inside n result }
{
    let mut lits = Lits::new();
    let mut rest = number;
    for _i in 0..size {
        lits.push(Lit::Const(rest % 2 == 1));
        rest /= 2;
    }
    lits
}

/// Inputs from 1 on.
pub fn inputs(size: usize) -> Lits
    requires { size ≤ 128 }
    ensures length { length result ≡ size }
    ensures inside { Inside size result }
{
    let mut lits = Lits::new();
    for i in 0..size {
        lits.push(Lit::Var(i as u32 + 1));
    }
    lits
}

/// A constant's bit.
pub fn bit(l: Lit) -> u128 {
    u128::from(l == Lit::Const(true))
}

/// The number of a list of constants.
pub fn number(lits: &Lits) -> u128 {
    let mut number: u128 = 0;
    for i in 0..lits.len() {
        number |= bit(lits.at(i)) << (i as u32);
    }
    number
}
