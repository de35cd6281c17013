//! Memory of 203 or 609 bytes, two nibbles each: registers of any word size, and a program that grows
//! down from the top. Nothing above sees its bytes.
#![tactic(auto)]

mod digits;
mod lines;
mod memory;

// The sizes of memory.
pub use hp_model::Extent;

// `new`, `with`, `copy`; `count`, `read`, `write`, `nibble`, `clear_registers`; `lines`, `blocks`, `line`,
// `insert_line`, `delete_line`, `clear_program`.
pub use memory::Memory;

/// The bytes that any memory has room for, and its nibbles, two a byte.
const ROOM: usize = hp_model::LARGE_BYTES;

const NIBBLES: usize = 2 * ROOM;
