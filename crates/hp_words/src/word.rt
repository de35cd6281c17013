// Words as numbers in a mode, and numbers as patterns. The pattern is in the range of its size by its type.
ghost use Rattle.std.specs.Prelude.{◌≡◌, ◌-◌, ◌^◌, ◌<◌, ◌≤◌, nat_abs};
ghost use Rattle.hp_model.specs.Words.{value, magnitude, low as low_of, fits as fits_in};

use crate::size::WordSize;
use hp_model::Mode;

/// A pattern of a word size, read in a mode.
#[derive(Clone, Copy, Debug, PartialEq, Eq)]
pub struct Word {
    pub size: WordSize,
    pub mode: Mode,
    pub pattern: u64,
    pub ghost in_range: { pattern < 2 ^ size.bits },
}

impl Word {
    pub fn new(size: WordSize, mode: Mode, pattern: u64) -> Word
        requires { pattern ≤ 2 ^ size.bits - 1 }
        ensures size { result.size ≡ size }
        ensures mode { result.mode ≡ mode }
        ensures pattern { result.pattern ≡ pattern }
    {
        Word {
            size,
            mode,
            pattern,
        }
    }

    pub fn pattern(self) -> u64
        ensures { result ≡ self.pattern }
    {
        self.pattern
    }

    /// The number that the pattern means in the word's mode.
    pub fn value(self) -> i128
        ensures value { result ≡ value self.size.bits self.mode self.pattern }
        ensures bound { nat_abs result < 2 ^ 64 }
    {
        let pattern = self.pattern as i128;
        let half = self.size.half() as i128;
        match self.mode {
            Mode::Unsigned => pattern,
            Mode::Ones => {
                if pattern < half {
                    pattern
                } else {
                    pattern - (2 * half - 1)
                }
            }
            Mode::Twos => {
                if pattern < half {
                    pattern
                } else {
                    pattern - 2 * half
                }
            }
        }
    }

    /// The absolute value of the number.
    pub fn magnitude(self) -> u64
        ensures value { result ≡ magnitude self.size.bits self.mode self.pattern }
        ensures bound { result < 2 ^ self.size.bits }
    {
        self.value().unsigned_abs() as u64
    }
}

/// The pattern of a number, whose higher part is lost.
pub fn low(size: WordSize, mode: Mode, v: i128) -> u64
    ensures { result ≡ low_of size.bits mode v }
{
    let patterns = size.patterns();
    if v >= 0 {
        (v as u128 % patterns) as u64
    } else {
        let below = v.unsigned_abs() % patterns;
        match mode {
            Mode::Ones => (patterns - 1 - below) as u64,
            _ => ((patterns - below) % patterns) as u64,
        }
    }
}

/// Whether a number is in the range of the word.
pub fn fits(size: WordSize, mode: Mode, v: i128) -> bool
    ensures { result ≡ fits_in size.bits mode v }
{
    let half = size.half() as i128;
    match mode {
        Mode::Unsigned => 0 <= v && v < 2 * half,
        Mode::Ones => -half < v && v < half,
        Mode::Twos => -half <= v && v < half,
    }
}
