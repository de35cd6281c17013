// Numbers by sign and magnitude: a number of 128 bits without a sign fits no `i128`, nor does each
// quotient of one with a sign.
ghost use Rattle.std.specs.Prelude.{◌≡◌, ◌≢◌, ◌^◌, ◌<◌, ◌≤◌, ◌*◌, ◌*ℤ◌, int_div, true};
ghost use Rattle.hp_model.specs.Words.{value, fits as fits_in};
ghost use Rattle.hp_model.specs.WordOperations.{rest_of};
ghost use Rattle.hp_double.specs.Number.{number};

use hp_words::{Mode, Word, WordSize, fits};

// A number of at most 128 bits beside its sign.
#[derive(Clone, Copy)]
pub struct Signed {
    pub negative: bool,
    pub magnitude: u128,
}

impl Signed {
    // The value of a word.
    pub fn of(x: Word) -> Signed
        ensures number { number result ≡ value x.size.bits x.mode x.pattern }
        ensures bound { result.magnitude < 2 ^ x.size.bits }
        ensures small { result.magnitude < 2 ^ 64 }
    {
        Signed {
            negative: x.value() < 0,
            magnitude: x.magnitude() as u128,
        }
    }

    // The number, where it is small.
    pub fn to_i128(self) -> i128
        requires { self.magnitude ≤ 2 ^ 64 }
        ensures { result ≡ number self }
    {
        let magnitude = self.magnitude as i128;
        if self.negative { -magnitude } else { magnitude }
    }

    // The product.
    pub fn times(self, other: Signed) -> Signed
        requires first { self.magnitude < 2 ^ 64 }
        requires second { other.magnitude < 2 ^ 64 }
        ensures number { number result ≡ number self *ℤ number other }
        ensures magnitude { result.magnitude ≡ self.magnitude * other.magnitude }
    {
        Signed {
            negative: self.negative != other.negative,
            magnitude: self.magnitude * other.magnitude,
        }
    }

    // The quotient cut towards 0.
    pub fn quotient(self, divisor: Signed) -> Signed
        requires { divisor.magnitude ≢ 0 }
        ensures { number result ≡ int_div (number self) (number divisor) }
    {
        Signed {
            negative: self.negative != divisor.negative,
            magnitude: self.magnitude / divisor.magnitude,
        }
    }

    // What that quotient leaves.
    pub fn rest(self, divisor: Signed) -> Signed
        requires { divisor.magnitude ≢ 0 }
        ensures number { number result ≡ rest_of (number self) (number divisor) }
        ensures bound { result.magnitude < divisor.magnitude }
    {
        Signed {
            negative: self.negative,
            magnitude: self.magnitude % divisor.magnitude,
        }
    }

    // Whether the number is in the range of a word.
    pub fn fits(self, size: WordSize, mode: Mode) -> bool
        ensures fits { result ≡ fits_in size.bits mode (number self) }
        ensures small { result ≡ true → self.magnitude ≤ 2 ^ 64 }
    {
        self.magnitude <= 1 << 64 && fits(size, mode, self.to_i128())
    }
}
