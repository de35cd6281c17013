// The product in two words: by sign and magnitude, and then as a pattern of twice the size.
ghost use Rattle.std.specs.Prelude.{◌≡◌, ◌-◌, ◌*◌, ◌/◌, ◌%◌, ◌^◌, ◌<◌};
ghost use Rattle.hp_model.specs.Words.{low};
ghost use Rattle.hp_model.specs.WordOperations.{double_product};
ghost use Rattle.hp_double.specs.Number.{number, two_words};
ghost use Rattle.hp_words.specs.Alike.{AreAlike};

use crate::signed::Signed;
use hp_words::{Mode, Word, WordSize};

// The upper and the lower word of a number without a sign.
fn parted(size: WordSize, n: u128) -> (u64, u64)
    requires { n < 2 ^ size.bits * 2 ^ size.bits }
    ensures { result ≡ two_words size.bits n }
{
    let patterns = size.patterns();
    ((n / patterns) as u64, (n % patterns) as u64)
}

// Both words with each bit turned round.
fn complemented(size: WordSize, words: (u64, u64)) -> (u64, u64)
    requires upper { words.0 < 2 ^ size.bits }
    requires lower { words.1 < 2 ^ size.bits }
    ensures { result ≡ (2 ^ size.bits - 1 - words.0, 2 ^ size.bits - 1 - words.1) }
{
    (size.mask() - words.0, size.mask() - words.1)
}

// The upper and the lower word of a number's pattern of twice the size.
fn double_pattern(size: WordSize, mode: Mode, v: Signed) -> (u64, u64)
    requires { v.magnitude < 2 ^ size.bits * 2 ^ size.bits }
    ensures { result ≡ two_words size.bits (low (2 * size.bits) mode (number v)) }
{
    if !v.negative || v.magnitude == 0 {
        return parted(size, v.magnitude);
    }
    match mode {
        Mode::Ones => complemented(size, parted(size, v.magnitude)),
        _ => complemented(size, parted(size, v.magnitude - 1)),
    }
}

/// The product of y and x in two words, the upper one first.
pub fn dbl_mul(y: Word, x: Word) -> (u64, u64)
    requires alike { AreAlike y x }
    ensures { result ≡ double_product x.size.bits x.mode y.pattern x.pattern }
{
    let product = Signed::of(y).times(Signed::of(x));
    double_pattern(x.size, x.mode, product)
}
