// Division, for a quotient and for its remainder: what both share is done once.
ghost use Rattle.std.specs.Prelude.{◌≡◌, ◌≢◌, ◌^◌, ◌<◌, ◌↔◌, nat_abs, int_div, pos, IfOk, IsErr};
ghost use Rattle.hp_model.specs.Words.{value};
ghost use Rattle.hp_model.specs.WordOperations.{quotient_of, remainder_of, rest_of};
ghost use Rattle.hp_words.specs.Alike.{AreAlike};

use hp_words::{Answer, Error0, Word, fits, low};

// A quotient cut towards 0.
fn quotient(y: i128, x: i128) -> i128
    requires small { nat_abs y < 2 ^ 64 }
    requires divides { x ≢ pos 0 }
    ensures { result ≡ int_div y x }
{
    y / x
}

// What a quotient cut towards 0 leaves.
fn rest(y: i128, x: i128) -> i128
    requires small { nat_abs y < 2 ^ 64 }
    requires divides { x ≢ pos 0 }
    ensures { result ≡ rest_of y x }
{
    y % x
}

// A quotient and what it leaves.
#[derive(Clone, Copy)]
struct Division {
    quotient: i128,
    rest: i128,
}

// y divided by x, and Error 0 where x is 0.
fn divide(y: Word, x: Word) -> Result<Division, Error0>
    requires alike { AreAlike y x }
    ensures quotient { IfOk result (λ d. d.quotient
        ≡ int_div (value x.size.bits x.mode y.pattern) (value x.size.bits x.mode x.pattern)) }
    ensures rest { IfOk result (λ d. d.rest
        ≡ rest_of (value x.size.bits x.mode y.pattern) (value x.size.bits x.mode x.pattern)) }
    ensures refused { IsErr result ↔ (value x.size.bits x.mode x.pattern ≡ pos 0) }
{
    let dividend = y.value();
    let divisor = x.value();
    if divisor == 0 {
        return Err(Error0);
    }
    Ok(Division {
        quotient: quotient(dividend, divisor),
        rest: rest(dividend, divisor),
    })
}

/// y divided by x, cut towards 0. The carry is set where a remainder is left.
pub fn div(y: Word, x: Word) -> Result<Answer, Error0>
    requires alike { AreAlike y x }
    ensures ok { IfOk result (λ a. a ≡ quotient_of x.size.bits x.mode y.pattern x.pattern) }
    ensures refused { IsErr result ↔ (value x.size.bits x.mode x.pattern ≡ pos 0) }
{
    let division = divide(y, x)?;
    Ok(Answer {
        pattern: low(x.size, x.mode, division.quotient),
        carry: Some(division.rest != 0),
        range: Some(!fits(x.size, x.mode, division.quotient)),
    })
}

/// The remainder of y divided by x, which has the sign of y.
pub fn rmd(y: Word, x: Word) -> Result<Answer, Error0>
    requires alike { AreAlike y x }
    ensures ok { IfOk result (λ a. a ≡ remainder_of x.size.bits x.mode y.pattern x.pattern) }
    ensures refused { IsErr result ↔ (value x.size.bits x.mode x.pattern ≡ pos 0) }
{
    let division = divide(y, x)?;
    Ok(Answer {
        pattern: low(x.size, x.mode, division.rest),
        carry: None,
        range: None,
    })
}
