//! A list of truth values, as circuits are evaluated on and as provers answer them: one type for
//! both, over a vector whose memory it neither takes nor gives back.
#![tactic(auto)]

ghost use Rattle.std.specs.Prelude.{◌≡◌};

use std::marker::Model;

/// A list of truth values.
#[derive(Debug, Drop)]
pub struct Bits {
    bits: Vec<bool>,
}

impl Model for Bits {
    ghost use Rattle.std.specs.Prelude.{List, Bool};

    ghost Value = { List Bool };

    ghost view = { λ b. b.bits.items };
}

impl Bits {
    /// The list of a vector's values. Takes no memory.
    pub fn new(bits: Vec<bool>) -> Bits
        ensures { result ≡ bits.items }
    {
        Bits { bits }
    }

    /// The values as a slice.
    pub fn as_slice(&self) -> &[bool]
        ensures { result.now ≡ self.now }
    {
        self.bits.as_slice()
    }

    /// The vector that holds the values. Takes no memory.
    pub fn into_vec(self) -> Vec<bool>
        ensures { result.items ≡ self }
    {
        self.bits
    }
}
