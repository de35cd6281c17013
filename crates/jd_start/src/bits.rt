//! The free bits of a start as a list of fixed room, and a bit as a number. How they are laid out
//! among a start's numbers is the problem's.
ghost use Rattle.std.specs.Prelude.{◌≡◌, ◌<◌, ◌≤◌, [], ◌∷◌, ◌++◌, length};
ghost use Rattle.hp_model.specs.WordOperations.{bit_number};

use arrayvec::ArrayVec;
use std::marker::Model;

/// The bits that can be free in a start: five words of 64, the index register, six flags and the
/// nibbles of the larger memory.
pub const MOST_BITS: usize = 5262;

/// A bit as a number.
pub fn bit_number(bit: bool) -> u64
    ensures value { result ≡ bit_number bit }
    ensures bound { result ≤ 1 }
{
    u64::from(bit)
}

/// At most as many bits as can be free in a start. Contracts see the list.
#[derive(Drop)]
pub struct Bits {
    bits: ArrayVec<bool, MOST_BITS>,
}

impl Model for Bits {
    ghost use Rattle.std.specs.Prelude.{◌≤◌, List, Bool, length};
    ghost use Rattle.jd_start.specs.declared.bits.TheConstants.{MOST_BITS};

    ghost Value = { List Bool };

    ghost view = { λ b. b.bits.items };

    ghost invariant = { λ b. length b.bits.items ≤ MOST_BITS };
}

impl Bits {
    /// No bits.
    pub fn new() -> Bits
        ensures { result ≡ [] }
    {
        Bits {
            bits: ArrayVec::new(),
        }
    }

    /// Adds a bit at the end.
    pub fn push(&mut self, bit: bool)
        requires { length self.old < MOST_BITS }
        ensures { self.new ≡ self.old ++ bit ∷ [] }
    {
        self.bits.push(bit);
    }

    /// How many bits there are.
    pub fn len(&self) -> usize
        ensures value { result ≡ length self.now }
        ensures bound { result ≤ MOST_BITS }
    {
        self.bits.len()
    }

    /// The bits in order.
    pub fn as_slice(&self) -> &[bool]
        ensures same { result.now ≡ self.now }
        ensures few { length result.now ≤ MOST_BITS }
    {
        self.bits.as_slice()
    }
}
