// All bits of words at once. The mode plays no part, and no flag is set.
ghost use Rattle.std.specs.Prelude.{◌≡◌, ◌+◌, ◌-◌, ◌*◌, ◌^◌, ◌<◌, ◌≤◌, bit_and, bit_or, bit_xor};
ghost use Rattle.hp_model.specs.WordOperations.{left_shifts, ones_below};
ghost use Rattle.hp_words.specs.Alike.{AreAlike};

use hp_words::Word;

/// x moved to the left until its top bit is 1, and by how many places. Zero stays, by none.
pub fn left_justify(x: Word) -> (u64, u64)
    ensures word { result.0 ≡ x.pattern * 2 ^ left_shifts x.size.bits x.pattern }
    ensures count { result.1 ≡ left_shifts x.size.bits x.pattern }
    ensures word_bound { result.0 < 2 ^ x.size.bits }
    ensures count_bound { result.1 < 2 ^ x.size.bits }
{
    if x.pattern == 0 {
        return (0, 0);
    }
    let shifts = x.pattern.leading_zeros() - (64 - x.size.bits as u32);
    (x.pattern << shifts, shifts as u64)
}

/// How many bits of x are 1.
pub fn count_ones(x: Word) -> u64
    ensures value { result ≡ ones_below x.size.bits x.pattern }
    ensures bound { result < 2 ^ x.size.bits }
{
    x.pattern.count_ones() as u64
}

/// Each bit of x turned round.
pub fn not(x: Word) -> u64
    ensures value { result ≡ 2 ^ x.size.bits - 1 - x.pattern }
    ensures bound { result < 2 ^ x.size.bits }
{
    x.size.mask() - x.pattern
}

/// The bits that are 1 in both.
pub fn and(y: Word, x: Word) -> u64
    requires alike { AreAlike y x }
    ensures value { result ≡ bit_and y.pattern x.pattern }
    ensures bound { result < 2 ^ x.size.bits }
{
    y.pattern & x.pattern
}

/// The bits that are 1 in one or both.
pub fn or(y: Word, x: Word) -> u64
    requires alike { AreAlike y x }
    ensures value { result ≡ bit_or y.pattern x.pattern }
    ensures bound { result < 2 ^ x.size.bits }
{
    y.pattern | x.pattern
}

/// The bits that are 1 in exactly one.
pub fn xor(y: Word, x: Word) -> u64
    requires alike { AreAlike y x }
    ensures value { result ≡ bit_xor y.pattern x.pattern }
    ensures bound { result < 2 ^ x.size.bits }
{
    y.pattern ^ x.pattern
}
