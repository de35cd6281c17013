//! The command `keys`: the calculator over a source and a sink. A session writes each display as
//! its line ends; a refused file gets one line more here.
ghost use Rattle.std.specs.Prelude.{◌≡◌, ◌≢◌, ◌+◌, ◌≤◌, IfSome};
ghost use Rattle.std.specs.Io.KnownBytes.{Appends};
ghost use Rattle.hp_io.specs.Causes.{CallsAtMost, Rose};
ghost use Rattle.hp_model.specs.Session.{byte_limit};
ghost use Rattle.hp_session.specs.Ends.{WasStopped};
ghost use Rattle.hp16c_commands.specs.KeyFiles.{WasAnswered, WasCut, IfAnswer, keys_status, keys_text};

use crate::outcomes::Status;
use crate::refusals::{write_bad_line, write_too_long};
use hp_io::{Sink, Source};
use hp_session::{SessionEnd, session};

/// Presses the keys of a key file on a new calculator, and writes the display after each line. A
/// refused file gives one line more.
pub fn keys<S: Source, K: Sink>(source: &mut S, sink: &mut K) -> Status
    ensures done { result ≡ Status.Done → WasAnswered Status.Done (S.left source.old) (S.left source.new) (K.written sink.old) (K.written sink.new) }
    ensures bad_input { result ≡ Status.BadInput → WasAnswered Status.BadInput (S.left source.old) (S.left source.new) (K.written sink.old) (K.written sink.new) }
    ensures limit { result ≡ Status.Limit → WasAnswered Status.Limit (S.left source.old) (S.left source.new) (K.written sink.old) (K.written sink.new) }
    ensures read_fault { result ≡ Status.ReadFault → WasStopped (S.left source.old) (S.left source.new) (K.written sink.old) (K.written sink.new) }
    ensures write_fault { result ≡ Status.WriteFault → WasCut (S.left source.old) (S.left source.new) (K.written sink.old) (K.written sink.new) }
    ensures no_usage { result ≢ Status.Usage }
    ensures no_memory { result ≢ Status.NoMemory }
    ensures no_certificate { result ≢ Status.CertRefused }
    ensures no_difference { result ≢ Status.Different }
    ensures no_unknown { result ≢ Status.Unknown }
    ensures no_paths { result ≢ Status.TooManyPaths }
    ensures read_cause { result ≡ Status.ReadFault → Rose (S.faults source.old) (S.faults source.new) }
    ensures write_cause { result ≡ Status.WriteFault → Rose (K.faults sink.old) (K.faults sink.new) }
    ensures told_status { IfSome (S.left source.old) (λ bytes. IfAnswer result (result ≡ keys_status bytes)) }
    ensures told_text { IfSome (S.left source.old) (λ bytes. IfAnswer result (Appends (K.written sink.old) (K.written sink.new) (keys_text bytes))) }

    // With no fault the answer is the file's.
    ensures complete { ¬ Rose (S.faults source.old) (S.faults source.new) → ¬ Rose (K.faults sink.old) (K.faults sink.new)
        → IfSome (S.left source.old) (λ bytes. result ≡ keys_status bytes) }
    ensures read_faults { S.faults source.old ≤ S.faults source.new }
    ensures write_faults { K.faults sink.old ≤ K.faults sink.new }
    ensures calls { CallsAtMost (byte_limit + 1) (S.calls source.old) (S.calls source.new) }
{
    match session(source, sink) {
        SessionEnd::Done => Status::Done,
        SessionEnd::BadWord { line, .. } => Status::BadInput.after(write_bad_line(
            sink,
            u64::from(line),
        )),
        SessionEnd::TooLong => Status::Limit.after(write_too_long(sink)),
        SessionEnd::ReadFault => Status::ReadFault,
        SessionEnd::WriteFault => Status::WriteFault,
    }
}
