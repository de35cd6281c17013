// The lines of the program as operations.
ghost use Rattle.std.specs.Prelude.{◌≡◌, ◌-◌, ◌≤◌, length, slice_index};
ghost use Rattle.hp_model.specs.Codes.{operation_of};
ghost use Rattle.hp_ops.specs.Meaning.{operation};

use crate::machine::Machine;
use hp_ops::Op;

impl Machine {
    /// The operation of a line, counted from 1.
    #[inline(always)]
    pub fn op_at(&self, line: u16) -> Op
        requires from_one { 1 ≤ line }
        requires to_last { line ≤ length self.now.memory.program }
        ensures { operation result ≡ operation_of (slice_index self.now.memory.program (line - 1)) }
    {
        Op::at(self.memory.line(line))
    }
}
