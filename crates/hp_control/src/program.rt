// Programs as control sees them.
ghost use Rattle.std.specs.Prelude.{◌≡◌, ◌-◌, ◌*◌, ◌≤◌, length, slice_index};
ghost use Rattle.hp_model.specs.State.{large_bytes};
ghost use Rattle.hp_control.specs.Controls.{Listing, listing_of};

use hp_nibbles::Memory;

/// Lines of codes in a memory of so many bytes, of which blocks of seven belong to them.
pub trait Program {
    ghost listing: { Self → Listing };

    /// How many bytes memory has.
    fn bytes(&self) -> u16
        ensures value { result ≡ (listing self.now).bytes }
        ensures bound { result ≤ large_bytes };

    /// How many lines there are.
    fn lines(&self) -> u16
        ensures value { result ≡ length (listing self.now).codes }
        ensures bound { result ≤ large_bytes };

    /// The code of a line, counted from 1.
    fn code(&self, line: u16) -> u8
        requires from_one { 1 ≤ line }
        requires to_last { line ≤ length (listing self.now).codes }
        ensures { result ≡ slice_index (listing self.now).codes (line - 1) };

    /// How many blocks of seven bytes belong to the lines.
    fn blocks(&self) -> u8
        ensures value { result ≡ (listing self.now).blocks }
        ensures bound { 7 * result ≤ (listing self.now).bytes };
}

impl Program for Memory {
    ghost listing = { λ m. listing_of m };

    fn bytes(&self) -> u16 {
        Memory::extent(self).bytes()
    }

    fn lines(&self) -> u16 {
        Memory::lines(self)
    }

    fn code(&self, line: u16) -> u8 {
        Memory::line(self, line)
    }

    fn blocks(&self) -> u8 {
        Memory::blocks(self)
    }
}
