//! A doubled word, and products and quotients by powers of two, need only move literals. `main`
//! prints how many gates such calls add to a circuit at most, at several sizes, and that is to be
//! none.
ghost use Rattle.std.specs.Prelude.{◌≤◌};

use crate::words::{inputs, word};
use jd_circuit::{Circuit, Lit, NoMemory, NoRules};
use jd_muldiv::{div_lits, mul_lits};
use jd_vectors::add_lits;
use std::alloc::Global;

// The gates of the three at one size and power.
fn gates_at(alloc: Global, size: usize, power: u128) -> Result<usize, NoMemory>
    requires { size ≤ 64 }
{
    let mut c = Circuit::new(alloc, &NoRules, 64)?;
    let x = inputs(size);
    let by = word(size, power);
    let _ = add_lits(&mut c, &x, &x, Lit::Const(false))?;
    let _ = mul_lits(&mut c, &x, &by)?;
    let _ = div_lits(&mut c, &x, &by)?;
    Ok(c.mark().gates)
}

/// The most gates of these, at sizes of a half word and less by each power that fits, and of a word
/// that is doubled and halved.
pub fn gates(alloc: Global) -> Result<usize, NoMemory> {
    let mut most = gates_at(alloc, 64, 2)?;
    for size in [1, 8, 16usize] {
        for i in 0..size {
            most = most.max(gates_at(alloc, size, 1 << (i as u32))?);
        }
    }
    Ok(most)
}
