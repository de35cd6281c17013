//! What a sink of bytes is, and how it is given a whole piece.
ghost use Rattle.std.specs.Prelude.{ℕ, ◌<◌, ◌≤◌, List, take, length, IfOk, OnOk};
ghost use Rattle.std.specs.declared.option.Option.{Option};
ghost use Rattle.std.specs.Io.{WritesAtMost};
ghost use Rattle.std.specs.Io.KnownBytes.{Appends, WriteAppends};
ghost use Rattle.hp_io.specs.Causes.{HasCause};

use crate::failures::Failed;

/// Where bytes go.
pub trait Sink {
    // The bytes that were written, where they are told.
    ghost written: { Self → Option (List ℕ) };

    // How often a write has failed.
    ghost faults: { Self → ℕ };

    /// Appends the first bytes of a piece, and answers how many they are.
    fn write(&mut self, bytes: &[u8]) -> Result<usize, Failed>
        ensures bound { WritesAtMost result bytes.now }
        ensures progress { IfOk result (λ n. 0 < length bytes.now → 0 < n) }
        ensures bytes { WriteAppends (written self.old) (written self.new) result bytes.now }
        ensures cause { HasCause (faults self.old) (faults self.new) result };
}

/// Writes all of the bytes, in as many calls as the sink needs.
pub fn write_whole<K: Sink>(sink: &mut K, bytes: &[u8]) -> Result<(), Failed>
    ensures whole { OnOk result (Appends (K.written sink.old) (K.written sink.new) bytes.now) }

    // Also after `Failed` a front of the bytes was written, and nothing else.
    ensures part { (n : ℕ) × (n ≤ length bytes.now)
        × Appends (K.written sink.old) (K.written sink.new) (take n bytes.now) }
    ensures cause { HasCause (K.faults sink.old) (K.faults sink.new) result }
{
    let mut rest = bytes;
    while !rest.is_empty() {
        let n = sink.write(rest)?;
        rest = &rest[n..];
    }
    Ok(())
}
