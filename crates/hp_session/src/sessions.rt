// A session over a source and a sink: the loop over the bytes, the limit on them, and the ways to end.
ghost use Rattle.std.specs.Prelude.{◌≡◌, ◌+◌, ◌≤◌, IfSome};
ghost use Rattle.std.specs.Io.KnownBytes.{Appends};
ghost use Rattle.hp_io.specs.Causes.{CallsAtMost, Rose};
ghost use Rattle.hp_model.specs.Session.{byte_limit, session as session_of};
ghost use Rattle.hp_session.specs.Ends.{WasDone, WasRefused, WasCutOff, WasStopped, WasCutShort, IfBadWord, IfNoFault};

use crate::reading::Reading;
use arrayvec::ArrayVec;
use hp_io::{Sink, Source, next_byte};

/// How a session ends.
#[derive(Debug, Drop)]
pub enum SessionEnd {
    /// The source was read to its end, and all displays are written.
    Done,
    /// A word is no key's, and names no machine where one may be named. Its line is counted from 1, and of a long word the first eight bytes are
    /// given.
    BadWord { line: u32, word: ArrayVec<u8, 8> },
    /// The source has more than a million bytes.
    TooLong,
    /// A read failed.
    ReadFault,
    /// A write failed.
    WriteFault,
}

// How many bytes a key file may have.
const LIMIT: u32 = 1_000_000;

/// Presses the keys of a key file on a new calculator, and writes the display after each line. The
/// calculator has 203 bytes of memory, or 609 where the first word of the first line is `M609`.
///
/// Words are separated by blanks, tabs, CR and LF. The bytes are read one at a time.
pub fn session<S: Source, K: Sink>(source: &mut S, sink: &mut K) -> SessionEnd
    ensures done { result ≡ SessionEnd.Done → WasDone (S.left source.old) (S.left source.new) (K.written sink.old) (K.written sink.new) }
    ensures bad_word { IfBadWord result (WasRefused (S.left source.old) (S.left source.new) (K.written sink.old) (K.written sink.new)) }
    ensures too_long { result ≡ SessionEnd.TooLong → WasCutOff (S.left source.old) (S.left source.new) (K.written sink.old) (K.written sink.new) }
    ensures read_fault { result ≡ SessionEnd.ReadFault → WasStopped (S.left source.old) (S.left source.new) (K.written sink.old) (K.written sink.new) }
    ensures write_fault { result ≡ SessionEnd.WriteFault → WasCutShort (S.left source.old) (S.left source.new) (K.written sink.old) (K.written sink.new) }

    // A fault has its cause: a count rose in this call.
    ensures read_cause { result ≡ SessionEnd.ReadFault → Rose (S.faults source.old) (S.faults source.new) }
    ensures write_cause { result ≡ SessionEnd.WriteFault → Rose (K.faults sink.old) (K.faults sink.new) }

    // Where the source tells its bytes and no fault came, they alone decide the end and the text.
    ensures told_end { IfSome (S.left source.old) (λ bytes. IfNoFault result (λ end. (session_of bytes).ended ≡ end)) }
    ensures told_text { IfSome (S.left source.old) (λ bytes. IfNoFault result (λ _. Appends (K.written sink.old) (K.written sink.new) (session_of bytes).text)) }
    ensures read_faults { S.faults source.old ≤ S.faults source.new }
    ensures write_faults { K.faults sink.old ≤ K.faults sink.new }
    ensures calls { CallsAtMost (byte_limit + 1) (S.calls source.old) (S.calls source.new) }
{
    let mut reading = Reading::new();
    let mut count: u32 = 0;
    loop {
        match next_byte(source) {
            Err(_) => return SessionEnd::ReadFault,
            Ok(None) => return reading.finish(sink),
            Ok(Some(byte)) => {
                if count == LIMIT {
                    return SessionEnd::TooLong;
                }
                if let Err(end) = reading.take(byte, sink) {
                    return end;
                }
                count += 1;
            }
        }
    }
}
