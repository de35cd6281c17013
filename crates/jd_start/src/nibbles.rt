//! Register nibbles as a list of fixed room, that of the larger memory, and how many a memory has
//! beside its program.
ghost use Rattle.std.specs.Prelude.{◌≡◌, ◌*◌, ◌<◌, ◌≤◌, [], ◌∷◌, ◌++◌, length};
ghost use Rattle.hp_model.specs.State.{memory_bytes, register_nibbles};
ghost use Rattle.jd_start.specs.Nibbles.{AreNibbles};

use arrayvec::ArrayVec;
use hp_model::Extent;
use std::marker::Model;

/// The nibbles of the larger memory without a program.
pub const MOST_NIBBLES: usize = 1218;

/// The blocks of seven bytes that a routine may take.
pub const MOST_BLOCKS: u8 = 29;

/// How many nibbles of a memory belong to registers where a program has so many blocks of seven
/// bytes.
pub fn register_nibbles(memory: Extent, blocks: u8) -> u16
    requires { 7 * blocks ≤ memory_bytes memory }
    ensures value { result ≡ register_nibbles (memory_bytes memory) blocks }
    ensures bound { result ≤ MOST_NIBBLES }
{
    2 * memory.bytes() - 14 * u16::from(blocks)
}

/// Numbers below 16, in the order of a machine's register nibbles and no more than these. Contracts
/// see the list.
#[derive(Drop)]
pub struct Nibbles {
    nibbles: ArrayVec<u8, MOST_NIBBLES>,
}

impl Model for Nibbles {
    ghost use Rattle.std.specs.Prelude.{List, ℕ};
    ghost use Rattle.jd_start.specs.Nibbles.{AreNibbles};

    ghost Value = { List ℕ };

    ghost view = { λ n. n.nibbles.items };

    ghost invariant = { λ n. AreNibbles n.nibbles.items };
}

impl Nibbles {
    /// No nibbles.
    pub fn new() -> Nibbles
        ensures { result ≡ [] }
    {
        Nibbles {
            nibbles: ArrayVec::new(),
        }
    }

    /// Adds a nibble at the end.
    pub fn push(&mut self, nibble: u8)
        requires nibble { nibble < 16 }
        requires room { length self.old < MOST_NIBBLES }
        ensures { self.new ≡ self.old ++ nibble ∷ [] }
    {
        self.nibbles.push(nibble);
    }

    /// The nibbles in order.
    pub fn as_slice(&self) -> &[u8]
        ensures same { result.now ≡ self.now }
        ensures nibbles { AreNibbles result.now }
    {
        self.nibbles.as_slice()
    }
}
