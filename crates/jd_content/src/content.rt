//! The data of a symbolic machine, each bit a literal of a circuit. Operations change them and
//! questions read them; a walk copies them at an answer of no, so that it can come back for yes.
ghost use Rattle.std.specs.Prelude.{◌≡◌, IfOk};

use crate::nibbles::NibbleLits;
use jd_circuit::{Lit, NoMemory};
use jd_vectors::Lits;
use std::alloc::Global;

/// The literals of the stack, of LAST X (`l`), of the index register (`i`, 64 literals at every word
/// size), of the flags from 0 to 5 and, four each, of the register nibbles.
#[derive(Drop)]
pub struct SymContent {
    pub x: Lits,
    pub y: Lits,
    pub z: Lits,
    pub t: Lits,
    pub l: Lits,
    pub i: Lits,
    pub flags: [Lit; 6],
    pub nibbles: NibbleLits,
}

impl SymContent {
    /// The same literals in memory of their own.
    pub fn copy(&self, alloc: Global) -> Result<SymContent, NoMemory>
        ensures { IfOk result (λ c. c ≡ self.now) }
    {
        let nibbles = match self.nibbles.copy(alloc) {
            Ok(nibbles) => nibbles,
            Err(refused) => return Err(refused),
        };
        Ok(SymContent {
            x: self.x.copy(),
            y: self.y.copy(),
            z: self.z.copy(),
            t: self.t.copy(),
            l: self.l.copy(),
            i: self.i.copy(),
            flags: self.flags,
            nibbles,
        })
    }
}
