//! Control is told of a program and not of a machine, so it's handed a routine's codes with the
//! blocks and the size of memory beside them. Each question and each step makes one anew from its
//! machine.
ghost use Rattle.std.specs.Prelude.{◌≡◌, ◌*◌, ◌≤◌, length};
ghost use Rattle.hp_model.specs.State.{memory_bytes};

use hp_control::Program;
use hp_model::Extent;

/// A routine's codes, the blocks that belong to it, and the size of memory.
#[derive(Drop)]
pub struct Lines<'a> {
    codes: &'a [u8],
    blocks: u8,
    extent: Extent,
    pub ghost lines_bound: { length codes.now ≤ 7 * blocks },
    pub ghost blocks_bound: { 7 * blocks ≤ memory_bytes extent },
}

impl<'a> Lines<'a> {
    pub fn new(codes: &'a [u8], blocks: u8, extent: Extent) -> Lines<'a>
        requires lines { length codes.now ≤ 7 * blocks }
        requires blocks { 7 * blocks ≤ memory_bytes extent }
        ensures codes { result.codes.now ≡ codes.now }
        ensures blocks { result.blocks ≡ blocks }
        ensures extent { result.extent ≡ extent }
    {
        Lines {
            codes,
            blocks,
            extent,
        }
    }
}

impl<'a> Program for Lines<'a> {
    ghost use Rattle.hp_model.specs.State.{memory_bytes};

    ghost listing = { λ l. record { bytes = memory_bytes l.extent; codes = l.codes.now; blocks = l.blocks } };

    fn bytes(&self) -> u16 {
        self.extent.bytes()
    }

    fn lines(&self) -> u16 {
        self.codes.len() as u16
    }

    fn code(&self, line: u16) -> u8 {
        self.codes[line as usize - 1]
    }

    fn blocks(&self) -> u8 {
        self.blocks
    }
}
