//! The words and flags of starts, about half of the words at an edge. They follow from a number
//! that `cases` makes of each case, so a case is the same in every run of the program.
use hp_words::WordSize;

/// A state that each draw changes.
#[derive(Drop)]
pub struct Draws {
    state: u64,
}

impl Draws {
    /// The draws that begin with a number.
    pub fn new(seed: u64) -> Draws {
        Draws { state: seed }
    }

    /// A number of 64 bits (the generator SplitMix64 of Steele, Lea and Flood).
    pub fn number(&mut self) -> u64 {
        self.state = self.state.wrapping_add(0x9E37_79B9_7F4A_7C15);
        let mut mixed = self.state;
        mixed = (mixed ^ (mixed >> 30)).wrapping_mul(0xBF58_476D_1CE4_E5B9);
        mixed = (mixed ^ (mixed >> 27)).wrapping_mul(0x94D0_49BB_1331_11EB);
        mixed ^ (mixed >> 31)
    }

    /// A count of places: up to one more than a word has.
    pub fn count(&mut self, size: WordSize) -> u64 {
        let count = self.number() % (u64::from(size.bits) + 2);
        count.min(size.mask())
    }

    /// A pattern of a size. Half of them are at an edge: 0, 1, all ones (-0 in one's complement), the
    /// most negative number and the greatest positive one.
    pub fn pattern(&mut self, size: WordSize) -> u64 {
        match self.number() % 10 {
            0 => 0,
            1 => 1,
            2 => size.mask(),
            3 => size.half(),
            4 => size.mask() / 2,
            5 => self.count(size),
            _ => self.number() & size.mask(),
        }
    }
}
