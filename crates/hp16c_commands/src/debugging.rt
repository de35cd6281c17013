//! The command `debug`: a script of keys and commands for the debugger. Its lines are answered one by one as
//! they are done, once the whole script was read and looked at, so no text is held.
ghost use Rattle.std.specs.Prelude.{◌≡◌, ◌≢◌, true, ◌+◌, ◌≤◌, ℕ, length, take, IfSome};
ghost use Rattle.std.specs.Io.KnownBytes.{Appends};
ghost use Rattle.hp_io.specs.Causes.{CallsAtMost, Rose};
ghost use Rattle.hp16c_commands.specs.Debugging.{debug_answer, WasTaken};
ghost use Rattle.hp16c_commands.specs.WholeInputs.{limit_of, WasGiven, WasCutShort, WasTold, IfGiven, can_end, is_fault};

use crate::outcomes::{Kept, Outcome, Status};
use crate::refusals::{write_bad_line, write_too_long};
use crate::whole_inputs::WholeInput;
use hp_debug::{Debugged, debug};
use hp_io::{Bytes, Failed, NoMemory, ReadStop, Sink, Source, Taken, read_limited};
use std::alloc::Global;

/// Works on a script, and writes its text or which of its lines is bad.
fn debug_bytes<K: Sink>(alloc: Global, bytes: &Bytes, sink: &mut K) -> Status
    requires { length bytes.now ≤ limit_of WholeInput.Debug }
    ensures answer { IfGiven result (WasTaken bytes.now result (K.written sink.old) (K.written sink.new)) }
    ensures no_memory { result ≡ Status.NoMemory → sink.new ≡ sink.old }
    ensures write_fault { result ≡ Status.WriteFault → (n : ℕ)
        × Appends (K.written sink.old) (K.written sink.new) (take n (debug_answer bytes.now).text) }
    ensures write_cause { result ≡ Status.WriteFault → Rose (K.faults sink.old) (K.faults sink.new) }
    ensures write_faults { K.faults sink.old ≤ K.faults sink.new }
    ensures ends { can_end WholeInput.Debug result ≡ true }
    ensures no_read_fault { result ≢ Status.ReadFault }
{
    match debug(alloc, bytes.as_slice(), sink) {
        Ok(Debugged::Done) => Status::Done,
        Ok(Debugged::BadLine(line)) => match write_bad_line(sink, u64::from(line)) {
            Ok(()) => Status::BadInput,
            Err(Failed) => Status::WriteFault,
        },
        Ok(Debugged::WriteFault) => Status::WriteFault,
        Err(NoMemory) => Status::NoMemory,
    }
}

/// Reads a script to its end, and works on it. It takes memory for the bytes and for the debugger's
/// history.
pub fn debug_input<S: Source, K: Sink>(alloc: Global, source: &mut S, sink: &mut K) -> Outcome
    ensures given { IfGiven result.status (WasGiven WholeInput.Debug result
        (S.left source.old) (S.left source.new) (K.written sink.old) (K.written sink.new)) }
    ensures read_fault { result.status ≡ Status.ReadFault → sink.new ≡ sink.old }
    ensures no_memory { result.status ≡ Status.NoMemory → sink.new ≡ sink.old }
    ensures write_fault { result.status ≡ Status.WriteFault → WasCutShort WholeInput.Debug
        (S.left source.old) (S.left source.new) (K.written sink.old) (K.written sink.new) }
    ensures told { IfSome (S.left source.old) (λ bytes. IfGiven result.status
        (WasTold WholeInput.Debug bytes result (K.written sink.old) (K.written sink.new))) }
    ensures no_usage { result.status ≢ Status.Usage }
    ensures ends { can_end WholeInput.Debug result.status ≡ true }
    ensures keeps { result.kept ≡ Kept.Nothing }
    ensures read_cause { result.status ≡ Status.ReadFault
        → Rose (S.faults source.old) (S.faults source.new) }
    ensures write_cause { result.status ≡ Status.WriteFault
        → Rose (K.faults sink.old) (K.faults sink.new) }
    ensures read_faults { S.faults source.old ≤ S.faults source.new }
    ensures write_faults { K.faults sink.old ≤ K.faults sink.new }
    ensures calls { CallsAtMost (limit_of WholeInput.Debug + 1) (S.calls source.old) (S.calls source.new) }
{
    match read_limited(alloc, source, WholeInput::Debug.limit()) {
        Ok(Taken::Whole(bytes)) => Outcome::of(debug_bytes(alloc, &bytes, sink)),
        Ok(Taken::TooLong) => match write_too_long(sink) {
            Ok(()) => Outcome::of(Status::Limit),
            Err(Failed) => Outcome::of(Status::WriteFault),
        },
        Err(ReadStop::Failed) => Outcome::of(Status::ReadFault),
        Err(ReadStop::NoMemory) => Outcome::of(Status::NoMemory),
    }
}
