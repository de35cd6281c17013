// Division of a number of two words, by sign and magnitude, for a quotient and for its remainder.
ghost use Rattle.std.specs.Prelude.{◌≡◌, ◌+◌, ◌*◌, ◌^◌, ◌<◌, ◌↔◌, IfOk, IsErr};
ghost use Rattle.hp_model.specs.WordOperations.{double_value as double_value_of, double_quotient, double_rest, double_quotient_of, double_remainder_of};
ghost use Rattle.hp_double.specs.Number.{number};
ghost use Rattle.hp_double.specs.Division.{CannotDivide};
ghost use Rattle.hp_words.specs.Alike.{AreAlike};

use crate::signed::Signed;
use hp_words::{Answer, Error0, Mode, Word, WordSize, low};

// Two words as one number without a sign.
fn joined(size: WordSize, upper: u64, lower: u64) -> u128
    requires upper { upper < 2 ^ size.bits }
    requires lower { lower < 2 ^ size.bits }
    ensures { result ≡ upper * 2 ^ size.bits + lower }
{
    upper as u128 * size.patterns() + lower as u128
}

// The value of two patterns as one of twice the size.
fn double_value(size: WordSize, mode: Mode, upper: u64, lower: u64) -> Signed
    requires upper { upper < 2 ^ size.bits }
    requires lower { lower < 2 ^ size.bits }
    ensures { number result ≡ double_value_of size.bits mode upper lower }
{
    let plain = Signed {
        negative: false,
        magnitude: joined(size, upper, lower),
    };
    if upper < size.half() {
        return plain;
    }
    let complement = joined(size, size.mask() - upper, size.mask() - lower);
    match mode {
        Mode::Unsigned => plain,
        Mode::Ones => Signed {
            negative: true,
            magnitude: complement,
        },
        Mode::Twos => Signed {
            negative: true,
            magnitude: complement + 1,
        },
    }
}

// A quotient that fits the word, and what it leaves.
#[derive(Clone, Copy)]
struct Division {
    quotient: i128,
    rest: i128,
}

// The number of two words divided by a third, and Error 0 where that is 0 or the quotient doesn't
// fit.
fn divide(upper: Word, lower: Word, divisor: Word) -> Result<Division, Error0>
    requires upper { AreAlike upper divisor }
    requires lower { AreAlike lower divisor }
    ensures quotient { IfOk result (λ d. d.quotient ≡ double_quotient divisor.size.bits divisor.mode
        upper.pattern lower.pattern divisor.pattern) }
    ensures rest { IfOk result (λ d. d.rest
        ≡ double_rest divisor.size.bits divisor.mode upper.pattern lower.pattern divisor.pattern) }
    ensures refused { IsErr result
        ↔ CannotDivide divisor.size.bits divisor.mode upper.pattern lower.pattern divisor.pattern }
{
    let first = double_value(divisor.size, divisor.mode, upper.pattern, lower.pattern);
    let second = Signed::of(divisor);
    if second.magnitude == 0 {
        return Err(Error0);
    }
    let quotient = first.quotient(second);
    if !quotient.fits(divisor.size, divisor.mode) {
        return Err(Error0);
    }
    Ok(Division {
        quotient: quotient.to_i128(),
        rest: first.rest(second).to_i128(),
    })
}

/// The number of two words, upper and lower, divided by a third and cut towards 0. The carry is set
/// where a remainder is left.
pub fn dbl_div(upper: Word, lower: Word, divisor: Word) -> Result<Answer, Error0>
    requires upper { AreAlike upper divisor }
    requires lower { AreAlike lower divisor }
    ensures ok { IfOk result (λ a. a ≡ double_quotient_of divisor.size.bits divisor.mode
        upper.pattern lower.pattern divisor.pattern) }
    ensures refused { IsErr result
        ↔ CannotDivide divisor.size.bits divisor.mode upper.pattern lower.pattern divisor.pattern }
{
    let division = divide(upper, lower, divisor)?;
    Ok(Answer {
        pattern: low(divisor.size, divisor.mode, division.quotient),
        carry: Some(division.rest != 0),
        range: Some(false),
    })
}

/// What that division leaves, which has the sign of the number of two words.
pub fn dbl_rmd(upper: Word, lower: Word, divisor: Word) -> Result<Answer, Error0>
    requires upper { AreAlike upper divisor }
    requires lower { AreAlike lower divisor }
    ensures ok { IfOk result (λ a. a ≡ double_remainder_of divisor.size.bits divisor.mode
        upper.pattern lower.pattern divisor.pattern) }
    ensures refused { IsErr result
        ↔ CannotDivide divisor.size.bits divisor.mode upper.pattern lower.pattern divisor.pattern }
{
    let division = divide(upper, lower, divisor)?;
    Ok(Answer {
        pattern: low(divisor.size, divisor.mode, division.rest),
        carry: None,
        range: None,
    })
}
