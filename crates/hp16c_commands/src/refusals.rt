//! The last line of a command whose input is refused. It takes no memory, so that `keys` can write
//! it too.
ghost use Rattle.std.specs.Prelude.{◌≡◌, ℕ, ◌≤◌, take, length, OnOk};
ghost use Rattle.std.specs.Io.KnownBytes.{Appends};
ghost use Rattle.hp_io.specs.Causes.{HasCause};
ghost use Rattle.hp16c_commands.specs.Refusals.{bad_line, too_long};
ghost use Rattle.arrayvec.specs.ArrayString.{array_string_len};

use arrayvec::ArrayString;
use hp_io::{Failed, Sink, write_whole};
use itoa::Buffer;

/// The line that tells which line of the input is bad, counted from 1.
pub fn bad_line(line: u64) -> ArrayString<32>
    ensures { result.bytes ≡ bad_line line }
{
    let mut buffer = Buffer::new();
    let mut text: ArrayString<32> = ArrayString::new();
    text.push_str("bad line ");
    text.push_str(buffer.format(line));
    text.push('\n');
    text
}

/// Writes which line of the input is bad, counted from 1.
pub fn write_bad_line<K: Sink>(sink: &mut K, line: u64) -> Result<(), Failed>
    ensures whole { OnOk result (Appends (K.written sink.old) (K.written sink.new) (bad_line line)) }
    ensures part { (n : ℕ) × Appends (K.written sink.old) (K.written sink.new) (take n (bad_line line)) }
    ensures cause { HasCause (K.faults sink.old) (K.faults sink.new) result }
{
    write_whole(sink, bad_line(line).as_str().as_bytes())
}

/// Writes that the input is too long.
pub fn write_too_long<K: Sink>(sink: &mut K) -> Result<(), Failed>
    ensures whole { OnOk result (Appends (K.written sink.old) (K.written sink.new) too_long) }
    ensures part { (n : ℕ) × Appends (K.written sink.old) (K.written sink.new) (take n too_long) }
    ensures cause { HasCause (K.faults sink.old) (K.faults sink.new) result }
{
    write_whole(sink, b"limit\n")
}
