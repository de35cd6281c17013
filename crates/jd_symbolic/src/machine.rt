//! Control of numbers beside data of literals, so that one machine does a routine for many starts
//! at once. A walk keeps a copy at each question answered with no, to return there and take yes.
ghost use Rattle.std.specs.Prelude.{◌≡◌, ◌*◌, ◌≤◌, IfOk, length};
ghost use Rattle.hp_model.specs.State.{memory_bytes};

use hp_asm::Routine;
use hp_control::Control;
use hp_model::Extent;
use jd_circuit::NoMemory;
use jd_content::SymContent;
use std::alloc::Global;

/// A machine whose data are literals of a circuit, while its control is that of a machine of numbers.
/// Its program is a routine, to which so many blocks of seven bytes of its memory belong.
#[derive(Drop)]
pub struct SymMachine {
    pub control: Control,
    pub content: SymContent,
    pub codes: Routine,
    pub blocks: u8,
    pub extent: Extent,
    pub ghost blocks_bound: { 7 * blocks ≤ memory_bytes extent },
    pub ghost lines_bound: { length codes ≤ 7 * blocks },
}

impl SymMachine {
    /// An equal machine, in memory of its own.
    pub fn copy(&self, alloc: Global) -> Result<SymMachine, NoMemory>
        ensures { IfOk result (λ m. m ≡ self.now) }
    {
        let content = self.content.copy(alloc)?;
        Ok(SymMachine {
            control: self.control.copy(),
            content,
            codes: self.codes.copy(),
            blocks: self.blocks,
            extent: self.extent,
        })
    }
}
