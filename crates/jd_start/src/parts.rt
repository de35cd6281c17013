//! The parts of a start one by one, which of them are observed, and at what they are fixed. A part
//! more is a field here and a row of the table of parts.
ghost use Rattle.std.specs.Prelude.{◌≡◌, length};

use crate::bits::bit_number;
use hp_words::WordSize;

/// How many parts a start has.
pub const PART_COUNT: usize = 13;

/// The parts of a start in their order.
#[derive(Clone, Copy, Debug, PartialEq, Eq)]
pub enum Part {
    X,
    Y,
    Z,
    T,
    /// LAST X.
    L,
    /// The index register, of 64 bits.
    I,
    F0,
    F1,
    F2,
    F3,
    /// The carry, flag 4.
    C,
    /// Out of range, flag 5.
    G,
    /// All register nibbles.
    M,
}

/// Which parts are observed.
#[derive(Clone, Copy, Debug)]
pub struct Parts {
    pub x: bool,
    pub y: bool,
    pub z: bool,
    pub t: bool,
    pub l: bool,
    pub i: bool,
    pub flags: [bool; 6],
    pub memory: bool,
    pub ghost six_flags: { length flags ≡ 6 },
}

/// The parts that have one value in all starts, each with it. The register nibbles can be fixed at
/// zero alone.
#[derive(Clone, Copy, Debug)]
pub struct Fixed {
    pub x: Option<u64>,
    pub y: Option<u64>,
    pub z: Option<u64>,
    pub t: Option<u64>,
    pub l: Option<u64>,
    pub i: Option<u64>,
    pub flags: [Option<bool>; 6],
    pub memory: bool,
    pub ghost six_flags: { length flags ≡ 6 },
}

impl Part {
    ghost use Rattle.std.specs.Prelude.{◌≡◌, nat_lt};
    ghost use Rattle.jd_model.specs.Problems.{part_limit};
    ghost use Rattle.jd_start.specs.Parts.{place_of};

    /// Whether it may be fixed at a number, where words have this size.
    pub fn can_be_fixed_at(self, size: WordSize, value: u64) -> bool
        ensures { result ≡ nat_lt value (part_limit size.bits (place_of self)) }
    {
        match self {
            Part::X | Part::Y | Part::Z | Part::T | Part::L => value <= size.mask(),
            Part::I => true,
            Part::M => value == 0,
            _ => value < 2,
        }
    }
}

impl Parts {
    ghost use Rattle.std.specs.Prelude.{◌≡◌, true, false, replicate, slice_index_or, slice_set};
    ghost use Rattle.jd_start.specs.Parts.{place_of, marks_of};

    /// No part.
    pub fn none() -> Parts
        ensures { marks_of result ≡ replicate PART_COUNT false }
    {
        Parts {
            x: false,
            y: false,
            z: false,
            t: false,
            l: false,
            i: false,
            flags: [false; 6],
            memory: false,
        }
    }

    /// Whether a part is one of them.
    pub fn contains(&self, part: Part) -> bool
        ensures { result ≡ slice_index_or (marks_of self.now) (place_of part) false }
    {
        match part {
            Part::X => self.x,
            Part::Y => self.y,
            Part::Z => self.z,
            Part::T => self.t,
            Part::L => self.l,
            Part::I => self.i,
            Part::F0 => self.flags[0],
            Part::F1 => self.flags[1],
            Part::F2 => self.flags[2],
            Part::F3 => self.flags[3],
            Part::C => self.flags[4],
            Part::G => self.flags[5],
            Part::M => self.memory,
        }
    }

    /// Adds a part.
    pub fn insert(&mut self, part: Part)
        ensures { marks_of self.new ≡ slice_set (marks_of self.old) (place_of part) true }
    {
        match part {
            Part::X => self.x = true,
            Part::Y => self.y = true,
            Part::Z => self.z = true,
            Part::T => self.t = true,
            Part::L => self.l = true,
            Part::I => self.i = true,
            Part::F0 => self.flags[0] = true,
            Part::F1 => self.flags[1] = true,
            Part::F2 => self.flags[2] = true,
            Part::F3 => self.flags[3] = true,
            Part::C => self.flags[4] = true,
            Part::G => self.flags[5] = true,
            Part::M => self.memory = true,
        }
    }
}

impl Fixed {
    ghost use Rattle.std.specs.Prelude.{◌≡◌, ◌<◌, replicate, slice_index_or, slice_set, None, Some};
    ghost use Rattle.jd_model.specs.Problems.{part_limit};
    ghost use Rattle.jd_start.specs.Parts.{place_of, values_of};

    /// No part.
    pub fn none() -> Fixed
        ensures { values_of result ≡ replicate PART_COUNT None }
    {
        Fixed {
            x: None,
            y: None,
            z: None,
            t: None,
            l: None,
            i: None,
            flags: [None; 6],
            memory: false,
        }
    }
    /// The number at which a part is fixed, if it is.
    pub fn value(&self, part: Part) -> Option<u64>
        ensures { result ≡ slice_index_or (values_of self.now) (place_of part) None }
    {
        match part {
            Part::X => self.x,
            Part::Y => self.y,
            Part::Z => self.z,
            Part::T => self.t,
            Part::L => self.l,
            Part::I => self.i,
            Part::F0 => self.flags[0].map(bit_number),
            Part::F1 => self.flags[1].map(bit_number),
            Part::F2 => self.flags[2].map(bit_number),
            Part::F3 => self.flags[3].map(bit_number),
            Part::C => self.flags[4].map(bit_number),
            Part::G => self.flags[5].map(bit_number),
            Part::M => if self.memory { Some(0) } else { None },
        }
    }

    /// Fixes a part at a number, which for a flag is 0 or 1 and for the register nibbles 0.
    pub fn set(&mut self, part: Part, value: u64)
        requires { value < part_limit 64 (place_of part) }
        ensures { values_of self.new ≡ slice_set (values_of self.old) (place_of part) (Some value) }
    {
        match part {
            Part::X => self.x = Some(value),
            Part::Y => self.y = Some(value),
            Part::Z => self.z = Some(value),
            Part::T => self.t = Some(value),
            Part::L => self.l = Some(value),
            Part::I => self.i = Some(value),
            Part::F0 => self.flags[0] = Some(value == 1),
            Part::F1 => self.flags[1] = Some(value == 1),
            Part::F2 => self.flags[2] = Some(value == 1),
            Part::F3 => self.flags[3] = Some(value == 1),
            Part::C => self.flags[4] = Some(value == 1),
            Part::G => self.flags[5] = Some(value == 1),
            Part::M => self.memory = true,
        }
    }
}
