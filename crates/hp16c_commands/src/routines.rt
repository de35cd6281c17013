//! The commands `asm` and `list`, which are each other's way back: a routine as assembly and as
//! codes.
ghost use Rattle.std.specs.Prelude.{◌≡◌, ◌≤◌, length, IfOk};
ghost use Rattle.hp16c_commands.specs.Routines.{asm_answer, list_answer};
ghost use Rattle.hp16c_commands.specs.Answered.{answer_of};
ghost use Rattle.hp16c_commands.specs.WholeInputs.{limit_of};

use crate::outcomes::Status;
use crate::told::Answer;
use crate::whole_inputs::WholeInput;
use hp_asm::{assemble, codes, list, read_codes};
use hp_io::Bytes;
use std::alloc::{AllocError, Global};

/// The codes of a routine, for its bytes as assembly.
pub fn assemble_routine(alloc: Global, bytes: &Bytes) -> Result<Answer, AllocError>
    requires { length bytes.now ≤ limit_of WholeInput.Assemble }
    ensures { IfOk result (λ answer. answer_of answer ≡ asm_answer bytes.now) }
{
    match assemble(bytes.as_slice()) {
        Ok(routine) => Answer::of(alloc, Status::Done, codes(&routine).as_str()),
        Err(fault) => Answer::bad_line(alloc, u64::from(fault.line)),
    }
}

/// The assembly of a routine, for its bytes as codes.
pub fn list_routine(alloc: Global, bytes: &Bytes) -> Result<Answer, AllocError>
    requires { length bytes.now ≤ limit_of WholeInput.List }
    ensures { IfOk result (λ answer. answer_of answer ≡ list_answer bytes.now) }
{
    match read_codes(bytes.as_slice()) {
        Ok(routine) => Answer::of(alloc, Status::Done, list(&routine).as_str()),
        Err(fault) => Answer::bad_line(alloc, u64::from(fault.line)),
    }
}
