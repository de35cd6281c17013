//! The nibbles of registers as one list, four literals each, so that a new word size moves nothing
//! and only divides the list anew. Registers are read and written in it, and `jd_difference`
//! compares two.
ghost use Rattle.std.specs.Prelude.{◌≡◌, ℕ, ◌+◌, ◌-◌, ◌*◌, ◌^◌, ◌<◌, ◌≤◌, List, length, slice_range, take, drop, ◌++◌, replicate, false, IfOk};

use jd_circuit::{Lit, NoMemory};
use jd_vectors::Lits;
use std::alloc::Global;
use std::marker::Model;

/// Literals of nibbles, lowest nibble and lowest bit first.
#[derive(Drop)]
pub struct NibbleLits {
    items: Vec<Lit>,
}

impl Model for NibbleLits {
    ghost use Rattle.std.specs.Prelude.{List};
    ghost use Rattle.jd_circuit.specs.declared.literals.Lit.{Lit};

    ghost Value = { List Lit };

    ghost view = { λ s. s.items.items };
}

impl NibbleLits {
    /// Nibbles of these literals.
    pub fn new(items: Vec<Lit>) -> NibbleLits
        ensures { result ≡ items.items }
    {
        NibbleLits { items }
    }

    /// The literals from one place up to another.
    pub fn read(&self, from: usize, to: usize) -> Lits
        requires order { from ≤ to }
        requires few { to ≤ from + 128 }
        requires end { to ≤ length self.now }
        ensures { result ≡ slice_range self.now from to }
    {
        Lits::of(&self.items.as_slice()[from..to])
    }

    /// Puts literals from a place on.
    pub fn write(&mut self, from: usize, lits: &Lits)
        requires inside { from + length lits.now ≤ length self.old }
        ensures { self.new
            ≡ take from self.old ++ lits.now ++ drop (from + length lits.now) self.old }
    {
        put_lits(self.items.as_mut_slice(), from, lits);
    }

    /// Every nibble becomes zero.
    pub fn clear(&mut self)
        ensures { self.new ≡ replicate (length self.old) (Lit.Const false) }
    {
        clear_lits(self.items.as_mut_slice());
    }

    /// The same literals in memory of their own.
    pub fn copy(&self, alloc: Global) -> Result<NibbleLits, NoMemory>
        ensures { IfOk result (λ n. n ≡ self.now) }
    {
        match Vec::from_slice(alloc, self.items.as_slice()) {
            Ok(items) => Ok(NibbleLits { items }),
            Err(_) => Err(NoMemory),
        }
    }
}

/// Puts literals into a slice from a place on.
fn put_lits(items: &mut [Lit], from: usize, lits: &Lits)
    requires inside { from + length lits.now ≤ length items.old }
    ensures { items.new
        ≡ take from items.old ++ lits.now ++ drop (from + length lits.now) items.old }
{
    for i in 0..lits.len() {
        items[from + i] = lits.at(i);
    }
}

/// Zeros in place of literals.
fn clear_lits(items: &mut [Lit])
    ensures { items.new ≡ replicate (length items.old) (Lit.Const false) }
{
    for i in 0..items.len() {
        items[i] = Lit::Const(false);
    }
}
