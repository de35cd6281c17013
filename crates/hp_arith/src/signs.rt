// Change of sign, and absolute values: a number given back to a word, out of range where it doesn't
// fit.
ghost use Rattle.std.specs.Prelude.{◌≡◌, ◌^◌, ◌<◌, neg_ℤ};
ghost use Rattle.hp_model.specs.Words.{value};
ghost use Rattle.hp_model.specs.WordOperations.{ranged as ranged_of, negation_of, negation_pattern as negation_pattern_of, absolute_of};

use hp_words::{Answer, Mode, Word, WordSize, fits, low};

// A number's low pattern, out of range where it doesn't fit.
pub(crate) fn ranged(size: WordSize, mode: Mode, v: i128) -> Answer
    ensures { result ≡ ranged_of size.bits mode v }
{
    Answer {
        pattern: low(size, mode, v),
        carry: None,
        range: Some(!fits(size, mode, v)),
    }
}

// The pattern of a change of sign.
fn negation_pattern(size: WordSize, mode: Mode, x: u64) -> u64
    requires { x < 2 ^ size.bits }
    ensures { result ≡ negation_pattern_of size.bits mode x }
{
    match mode {
        Mode::Ones => size.mask() - x,
        _ => ((size.patterns() - x as u128) % size.patterns()) as u64,
    }
}

// The value with its sign changed.
fn negation_value(x: Word) -> i128
    ensures { result ≡ neg_ℤ (value x.size.bits x.mode x.pattern) }
{
    -x.value()
}

/// -x. Unsigned, it is out of range unless x is 0.
pub fn chs(x: Word) -> Answer
    ensures { result ≡ negation_of x.size.bits x.mode x.pattern }
{
    let negation = negation_value(x);
    Answer {
        pattern: negation_pattern(x.size, x.mode, x.pattern),
        carry: None,
        range: Some(!fits(x.size, x.mode, negation)),
    }
}

/// The absolute value of x. In two's complement the least number's is out of range.
pub fn abs(x: Word) -> Answer
    ensures { result ≡ absolute_of x.size.bits x.mode x.pattern }
{
    ranged(x.size, x.mode, x.magnitude() as i128)
}
