// Edits of the program.
ghost use Rattle.std.specs.Prelude.{◌≡◌, ◌+◌, ◌-◌, ◌≤◌, ◌==◌, ◌↔◌, length, insert as inserted, remove as removed, IsErr, OnOk, OnErr, IfOk, if◌then◌else◌};
ghost use Rattle.hp_model.specs.State.{blocks_of};
ghost use Rattle.hp_model.specs.Memory.{edited};
ghost use Rattle.hp_model.specs.Codes.{code_of};
ghost use Rattle.hp_ops.specs.Meaning.{operation};

use hp_nibbles::Memory;
use hp_ops::Op;
use thiserror::Error;

/// The program has as many lines as memory has bytes: Error 4.
#[derive(Clone, Copy, Debug, PartialEq, Eq, Error)]
#[error("Error 4")]
pub struct Full;

/// Puts an operation after a line, and answers the number of its own line. Bytes that the program takes
/// from the registers for it are cleared first.
pub fn insert(memory: &mut Memory, line: u16, op: Op) -> Result<u16, Full>
    requires line { line ≤ length memory.old.program }
    requires blocks { memory.old.blocks ≡ blocks_of (length memory.old.program) }
    ensures full { IsErr result ↔ memory.old.bytes ≤ length memory.old.program }
    ensures line { IfOk result (λ new_line. new_line ≡ line + 1) }
    ensures memory { OnOk result (memory.new ≡ edited (inserted memory.old.program line (code_of (operation op))) memory.old) }
    ensures unchanged { OnErr result (memory.new ≡ memory.old) }
    ensures blocks { memory.new.blocks ≡ blocks_of (length memory.new.program) }
{
    if memory.insert_line(line, op.code()) {
        Ok(line + 1)
    } else {
        Err(Full)
    }
}

/// Takes a line out, and answers the number of the line before it. At line 0 nothing is done. Bytes that
/// the program gives back to the registers are zero.
pub fn delete(memory: &mut Memory, line: u16) -> u16
    requires line { line ≤ length memory.old.program }
    requires blocks { memory.old.blocks ≡ blocks_of (length memory.old.program) }
    ensures line { result ≡ line - 1 }
    ensures memory { memory.new ≡ (if line == 0 then memory.old else edited (removed memory.old.program (line - 1)) memory.old) }
    ensures blocks { memory.new.blocks ≡ blocks_of (length memory.new.program) }
{
    if line == 0 {
        return 0;
    }
    memory.delete_line(line);
    line - 1
}
