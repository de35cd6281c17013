//! At a start the register nibbles are all free, or all zero where a problem fixes memory. Free
//! ones take the inputs after those of words and flags, four each; neither kind needs a gate.
ghost use Rattle.std.specs.Prelude.{◌≡◌, ℕ, ◌+◌, ◌*◌, ◌^◌, ◌<◌, ◌≤◌, ◌++◌, ◌∷◌, [], Bool, IfOk, List, drop, false, length, replicate};
ghost use Rattle.jd_model.specs.Problems.{numbers_in};
ghost use Rattle.jd_circuit.specs.Net.{at};
ghost use Rattle.jd_vectors.specs.Number.{Inside};
ghost use Rattle.jd_content.specs.Meaning.{nibbles_on};
ghost use Rattle.jd_inputs.specs.Inputs.{inputs_from};
ghost use Rattle.jd_inputs.specs.Nibbles.{free_nibble, zero_nibble};

use jd_circuit::{Lit, NoMemory};
use jd_content::NibbleLits;
use std::alloc::Global;

/// Adds a literal.
fn push(items: &mut Vec<Lit>, l: Lit) -> Result<(), NoMemory>
    ensures { IfOk result (λ _. items.new.items ≡ items.old.items ++ l ∷ []) }
{
    match items.push(l) {
        Ok(()) => Ok(()),
        Err(_) => Err(NoMemory),
    }
}

/// So many inputs, after those that are taken.
fn input_items(alloc: Global, count: u32, taken: u32) -> Result<Vec<Lit>, NoMemory>
    requires count { count ≤ 2 ^ 13 }
    requires taken { taken ≤ 2 ^ 19 }
    ensures { IfOk result (λ v. v.items ≡ inputs_from count taken) }
{
    let mut items = Vec::new(alloc);
    for i in 0..count {
        push(&mut items, Lit::Var(taken + i + 1))?;
    }
    Ok(items)
}

/// So many zeros.
fn zero_items(alloc: Global, count: u32) -> Result<Vec<Lit>, NoMemory>
    ensures { IfOk result (λ v. v.items ≡ replicate count (Lit.Const false)) }
{
    let mut items = Vec::new(alloc);
    for i in 0..count {
        // The invariant counts by `i`.
        let _ = i;
        push(&mut items, Lit::Const(false))?;
    }
    Ok(items)
}

/// Nibbles that are free.
pub fn free_nibbles(alloc: Global, count: u16, taken: u32) -> Result<NibbleLits, NoMemory>
    requires count { count ≤ 1218 }
    requires taken { taken ≤ 2 ^ 19 }
    ensures length { IfOk result (λ ns. length ns ≡ 4 * count) }
    ensures inside { IfOk result (λ ns. (n : ℕ) → taken + 4 * count ≤ n → Inside n ns) }
    ensures numbers { IfOk result (λ ns. (bits : List Bool) → taken + 4 * count ≤ length bits
        → nibbles_on (at bits) ns ≡ numbers_in (replicate count free_nibble) (drop taken bits)) }
{
    let items = input_items(alloc, 4 * count as u32, taken)?;
    Ok(NibbleLits::new(items))
}

/// Nibbles that are fixed at zero.
pub fn zero_nibbles(alloc: Global, count: u16) -> Result<NibbleLits, NoMemory>
    ensures length { IfOk result (λ ns. length ns ≡ 4 * count) }
    ensures inside { IfOk result (λ ns. (n : ℕ) → Inside n ns) }
    ensures numbers { IfOk result (λ ns. (bits rest : List Bool)
        → nibbles_on (at bits) ns ≡ numbers_in (replicate count zero_nibble) rest) }
{
    let items = zero_items(alloc, 4 * count as u32)?;
    Ok(NibbleLits::new(items))
}
