// The state of the stack, LAST X, the index register and the flags, without memory.

/// The stack X, Y, Z and T, LAST X, the index register of 64 bits, and the flags 0 to 5, of which 4 is
/// the carry and 5 is out of range.
#[derive(Clone, Copy, Debug, PartialEq, Eq)]
pub struct Content {
    pub x: u64,
    pub y: u64,
    pub z: u64,
    pub t: u64,
    pub l: u64,
    pub i: u64,
    pub flags: [bool; 6],
}
