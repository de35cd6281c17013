// Word sizes: how many patterns and nibbles they have. The bounds stand in the type.
ghost use Rattle.std.specs.Prelude.{◌≡◌, ◌+◌, ◌-◌, ◌*◌, ◌/◌, ◌^◌, ◌<◌, ◌≤◌, ◌↔◌, IsSome, IfSome};
ghost use Rattle.hp_model.specs.State.{width};

/// A number of bits from 1 to 64.
#[derive(Clone, Copy, Debug, PartialEq, Eq)]
pub struct WordSize {
    pub bits: u8,
    pub ghost at_least_one: { 1 ≤ bits },
    pub ghost at_most_64: { bits ≤ 64 },
}

impl WordSize {
    /// None where the number is 0 or above 64.
    pub fn new(bits: u8) -> Option<WordSize>
        ensures made { IsSome result ↔ ((1 ≤ bits) × (bits ≤ 64)) }
        ensures value { IfSome result (λ size. size.bits ≡ bits) }
    {
        if bits == 0 || bits > 64 {
            None
        } else {
            Some(WordSize { bits })
        }
    }

    pub fn bits(self) -> u8
        ensures { result ≡ self.bits }
    {
        self.bits
    }

    /// How many nibbles a register of this size takes in memory.
    pub fn nibbles(self) -> u8
        ensures { result ≡ width self.bits }
    {
        (self.bits + 3) / 4
    }

    /// The greatest pattern.
    pub fn mask(self) -> u64
        ensures { result ≡ 2 ^ self.bits - 1 }
    {
        if self.bits == 64 {
            u64::MAX
        } else {
            (1 << self.bits) - 1
        }
    }

    /// How many patterns there are.
    pub fn patterns(self) -> u128
        ensures value { result ≡ 2 ^ self.bits }
        ensures least { 2 ≤ result }
        ensures greatest { result ≤ 2 ^ 64 }
    {
        2 * self.half() as u128
    }

    /// Half the number of patterns, which is one more than the greatest signed number.
    pub fn half(self) -> u64
        ensures value { result ≡ 2 ^ (self.bits - 1) }
        ensures doubled { 2 * 2 ^ (self.bits - 1) ≡ 2 ^ self.bits }
        ensures least { 1 ≤ result }
        ensures greatest { result ≤ 2 ^ 63 }
    {
        1 << (self.bits - 1)
    }
}
