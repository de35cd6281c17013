// The program's bytes. Line i, from 1, is the i-th byte from the end of memory, where the room for bytes
// may go on.
ghost use Rattle.std.specs.Prelude.{◌≡◌, ℕ, ◌-◌, ◌*◌, ◌<◌, ◌≤◌, length, slice_index};
ghost use Rattle.hp_model.specs.State.{memory_bytes, blocks_of};
ghost use Rattle.hp_nibbles.specs.Edits.{byte_inserted, byte_deleted, byte_cleared, byte_with_lines};

use crate::ROOM;
use hp_model::Extent;

/// The blocks of seven bytes that so many lines take.
pub fn blocks_for(lines: u16) -> u8
    requires { lines ≤ ROOM }
    ensures { result ≡ blocks_of lines }
{
    ((lines + 6) / 7) as u8
}

/// The byte past the last one of memory.
pub fn end_of(extent: Extent) -> usize
    ensures value { result ≡ memory_bytes extent }
    ensures inside { result ≤ ROOM }
{
    extent.bytes() as usize
}

/// The first byte of so many blocks.
pub fn first_byte(extent: Extent, blocks: u8) -> usize
    requires { 7 * blocks ≤ memory_bytes extent }
    ensures { result ≡ memory_bytes extent - 7 * blocks }
{
    end_of(extent) - 7 * blocks as usize
}

/// Bytes that are all zero.
pub fn zeros() -> [u8; ROOM]
    ensures { (b : ℕ) → slice_index result b ≡ 0 }
{
    [0; ROOM]
}

/// Clears the bytes from one on and before another.
pub fn clear_bytes(bytes: &mut [u8; ROOM], from: usize, end: usize)
    requires order { from ≤ end }
    requires inside { end ≤ ROOM }
    ensures { (b : ℕ) → slice_index bytes.new b ≡ byte_cleared bytes.old from end b }
{
    for b in from..end {
        bytes[b] = 0;
    }
}

/// Writes a program's lines.
pub fn put_lines(bytes: &mut [u8; ROOM], extent: Extent, codes: &[u8])
    requires { length codes.now ≤ memory_bytes extent }
    ensures { (b : ℕ) → slice_index bytes.new b ≡ byte_with_lines (memory_bytes extent) bytes.old codes.now b }
{
    let end = end_of(extent);
    for (i, code) in codes.iter().enumerate() {
        bytes[end - 1 - i] = *code;
    }
}

/// Makes room for a line among so many lines, and puts it there.
pub fn put_line(bytes: &mut [u8; ROOM], extent: Extent, lines: u16, after: u16, code: u8)
    requires room { lines < memory_bytes extent }
    requires after { after ≤ lines }
    ensures { (b : ℕ) → slice_index bytes.new b ≡ byte_inserted (memory_bytes extent) bytes.old lines after code b }
{
    let end = end_of(extent);
    let first = end - lines as usize;
    let place = end - 1 - after as usize;
    bytes.copy_within(first..place + 1, first - 1);
    bytes[place] = code;
}

/// Closes the gap that a line leaves among so many lines.
pub fn take_line(bytes: &mut [u8; ROOM], extent: Extent, lines: u16, i: u16)
    requires some { 1 ≤ i }
    requires line { i ≤ lines }
    requires few { lines ≤ memory_bytes extent }
    ensures { (b : ℕ) → slice_index bytes.new b ≡ byte_deleted (memory_bytes extent) bytes.old lines i b }
{
    let end = end_of(extent);
    let first = end - lines as usize;
    let place = end - i as usize;
    bytes.copy_within(first..place, first + 1);
    bytes[first] = 0;
}
