// Memory as its users see it: registers, and a program.
ghost use Rattle.std.specs.Prelude.{◌≡◌, ◌+◌, ◌-◌, ◌*◌, ◌<◌, ◌≤◌, ◌^◌, List, [], All, length, replicate, slice_index, insert, remove, nat_lt, if◌then◌else◌};
ghost use Rattle.hp_model.specs.State.{memory_bytes, register_count, register_nibbles, blocks_of};
ghost use Rattle.hp_model.specs.Memory.{empty_memory, register_value, with_register, nibble_of, edited};
ghost use Rattle.hp_nibbles.specs.Bounds.{IsBounded};
ghost use Rattle.hp_nibbles.specs.Passing.{PassesNibbles};

use crate::ROOM;
use crate::digits::{put_digits, read_nibbles, write_nibbles};
use crate::lines::{
    blocks_for, clear_bytes, end_of, first_byte, put_line, put_lines, take_line, zeros,
};
use hp_model::Extent;
use hp_words::WordSize;
use std::marker::Model;

/// The bytes of memory, and how many lines and blocks of seven bytes the program has. The HP-16C
/// Owner's Handbook has the 203 bytes of the standard size, one a program line, and the blocks. That byte b
/// holds nibble 2b in its lower half, and that line i, from 1, is the i-th byte from the end, is this
/// project's own. The bytes past a standard memory's end are never used.
#[derive(Drop)]
pub struct Memory {
    bytes: [u8; ROOM],
    extent: Extent,
    lines: u16,
    blocks: u8,
}

impl Model for Memory {
    ghost use Rattle.hp_model.specs.State.{memory_bytes};
    ghost use Rattle.hp_model.specs.Memory.{Memory as Contents};
    ghost use Rattle.hp_nibbles.specs.Bytes.{memory_in, IsOrderly};

    ghost Value = { Contents };

    ghost view = { λ m. memory_in (memory_bytes m.extent) m.bytes m.lines m.blocks };

    ghost invariant = { λ m. IsOrderly (memory_bytes m.extent) m.bytes m.lines m.blocks };
}

impl Memory {
    /// Memory of zeros, with no program.
    pub fn new(extent: Extent) -> Memory
        ensures { result ≡ empty_memory (memory_bytes extent) }
    {
        Memory {
            bytes: zeros(),
            extent,
            lines: 0,
            blocks: 0,
        }
    }

    /// Memory with a program of these codes, so many blocks, and these register nibbles.
    pub fn with(extent: Extent, codes: &[u8], blocks: u8, nibbles: &[u8]) -> Memory
        requires blocks { 7 * blocks ≤ memory_bytes extent }
        requires lines_in_blocks { length codes.now ≤ 7 * blocks }
        requires codes { All (λ code. code < 225) codes.now }
        requires nibbles { length nibbles.now ≡ register_nibbles (memory_bytes extent) blocks }
        requires digits { All (λ nibble. nibble < 16) nibbles.now }
        ensures { result ≡ record {
          bytes = memory_bytes extent;
          program = codes.now;
          blocks = blocks;
          nibbles = nibbles.now;
        } }
    {
        let mut bytes = zeros();
        put_digits(&mut bytes, nibbles);
        put_lines(&mut bytes, extent, codes);
        Memory {
            bytes,
            extent,
            lines: codes.len() as u16,
            blocks,
        }
    }

    /// The same memory.
    pub fn copy(&self) -> Memory
        ensures { result ≡ self.now }
    {
        Memory {
            bytes: self.bytes,
            extent: self.extent,
            lines: self.lines,
            blocks: self.blocks,
        }
    }

    /// The size of memory.
    pub fn extent(&self) -> Extent
        ensures value { memory_bytes result ≡ self.now.bytes }
        ensures bounds { IsBounded self.now }
    {
        self.extent
    }

    /// How many lines the program has.
    pub fn lines(&self) -> u16
        ensures value { result ≡ length self.now.program }
        ensures bounds { IsBounded self.now }
    {
        self.lines
    }

    /// How many blocks of seven bytes belong to the program.
    pub fn blocks(&self) -> u8
        ensures value { result ≡ self.now.blocks }
        ensures bounds { IsBounded self.now }
    {
        self.blocks
    }

    /// How many registers of a word size there are.
    pub fn count(&self, size: WordSize) -> u16
        ensures { result ≡ register_count self.now.bytes size.bits self.now.blocks }
    {
        (2 * self.extent.bytes() - 14 * self.blocks as u16) / size.nibbles() as u16
    }

    /// Register r of a word size.
    pub fn read(&self, size: WordSize, r: u16) -> u64
        requires { r < register_count self.now.bytes size.bits self.now.blocks }
        ensures value { result ≡ register_value size.bits self.now.nibbles r }
        ensures bound { result < 2 ^ size.bits }
    {
        let width = size.nibbles() as usize;
        let digits = read_nibbles(&self.bytes, width * r as usize, width);
        (digits & size.mask() as u128) as u64
    }

    /// Writes register r of a word size. Above the word its last nibble has zeros.
    pub fn write(&mut self, size: WordSize, r: u16, v: u64)
        requires register { r < register_count self.old.bytes size.bits self.old.blocks }
        requires pattern { v < 2 ^ size.bits }
        ensures { self.new ≡ record self.old { nibbles = with_register size.bits self.old.nibbles r v } }
    {
        let width = size.nibbles() as usize;
        write_nibbles(&mut self.bytes, width * r as usize, width, v);
    }

    /// Nibble j of all, those of the program too.
    pub fn nibble(&self, j: u16) -> u8
        requires { j < 2 * self.now.bytes }
        ensures value { result ≡ nibble_of self.now j }
        ensures bound { result < 16 }
    {
        let byte = self.bytes[(j / 2) as usize];
        if j % 2 == 0 { byte % 16 } else { byte / 16 }
    }

    /// Makes every register nibble 0.
    pub fn clear_registers(&mut self)
        ensures { self.new ≡ record self.old { nibbles = replicate (length self.old.nibbles) 0 } }
    {
        clear_bytes(&mut self.bytes, 0, first_byte(self.extent, self.blocks));
    }

    /// The code of line i, from 1.
    pub fn line(&self, i: u16) -> u8
        requires from_one { 1 ≤ i }
        requires to_lines { i ≤ length self.now.program }
        ensures value { result ≡ slice_index self.now.program (i - 1) }
        ensures code { result < 225 }
    {
        // For the invariant, which says that the codes of lines are below 225.
        let _ = &self.bytes;
        self.bytes[end_of(self.extent) - i as usize]
    }

    /// Puts a line after line `after`, or at the front where that is 0. False where memory is full of lines.
    pub fn insert_line(&mut self, after: u16, code: u8) -> bool
        requires after { after ≤ length self.old.program }
        requires code { code < 225 }
        requires blocks { self.old.blocks ≡ blocks_of (length self.old.program) }
        ensures room { result ≡ nat_lt (length self.old.program) self.old.bytes }
        ensures memory { self.new ≡ (if result then edited (insert self.old.program after code) self.old else self.old) }
        ensures nibbles { PassesNibbles self.old self.new }
        ensures bounds { IsBounded self.new }
    {
        if self.lines == self.extent.bytes() {
            return false;
        }
        let blocks = blocks_for(self.lines + 1);
        clear_bytes(
            &mut self.bytes,
            first_byte(self.extent, blocks),
            first_byte(self.extent, self.blocks),
        );
        put_line(&mut self.bytes, self.extent, self.lines, after, code);
        self.lines += 1;
        self.blocks = blocks;
        true
    }

    /// Takes line i, from 1, out of the program.
    pub fn delete_line(&mut self, i: u16)
        requires from_one { 1 ≤ i }
        requires to_lines { i ≤ length self.old.program }
        requires blocks { self.old.blocks ≡ blocks_of (length self.old.program) }
        ensures memory { self.new ≡ edited (remove self.old.program (i - 1)) self.old }
        ensures nibbles { PassesNibbles self.old self.new }
    {
        take_line(&mut self.bytes, self.extent, self.lines, i);
        self.lines -= 1;
        self.blocks = blocks_for(self.lines);
    }

    /// Takes all lines out of the program, whose bytes become registers of zeros.
    pub fn clear_program(&mut self)
        ensures memory { self.new ≡ edited [] self.old }
        ensures nibbles { PassesNibbles self.old self.new }
    {
        clear_bytes(
            &mut self.bytes,
            first_byte(self.extent, self.blocks),
            end_of(self.extent),
        );
        self.lines = 0;
        self.blocks = 0;
    }
}
