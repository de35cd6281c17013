// Addition and subtraction: the pattern and the carry come of the patterns, the range of the
// values.
ghost use Rattle.std.specs.Prelude.{◌≡◌, ◌^◌, ◌<◌, ◌+ℤ◌, ◌-ℤ◌};
ghost use Rattle.hp_model.specs.Words.{value};
ghost use Rattle.hp_model.specs.WordOperations.{sum_of, sum_pattern as sum_pattern_of, difference_of, difference_pattern as difference_pattern_of};
ghost use Rattle.hp_words.specs.Alike.{AreAlike};

use hp_words::{Answer, Mode, Word, WordSize, fits};

// The pattern of a sum.
fn sum_pattern(size: WordSize, mode: Mode, y: u64, x: u64) -> u64
    requires first { y < 2 ^ size.bits }
    requires second { x < 2 ^ size.bits }
    ensures { result ≡ sum_pattern_of size.bits mode y x }
{
    let patterns = size.patterns();
    let sum = y as u128 + x as u128;
    match mode {
        Mode::Ones => {
            if sum < patterns {
                sum as u64
            } else {
                (sum + 1 - patterns) as u64
            }
        }
        _ => (sum % patterns) as u64,
    }
}

// The sum of two values.
fn sum_value(y: Word, x: Word) -> i128
    requires alike { AreAlike y x }
    ensures { result ≡ value x.size.bits x.mode y.pattern +ℤ value x.size.bits x.mode x.pattern }
{
    y.value() + x.value()
}

/// y + x. The carry is set where the sum of the patterns passes the word. In one's complement it
/// comes around.
pub fn add(y: Word, x: Word) -> Answer
    requires alike { AreAlike y x }
    ensures { result ≡ sum_of x.size.bits x.mode y.pattern x.pattern }
{
    let carry = x.size.patterns() <= y.pattern as u128 + x.pattern as u128;
    let sum = sum_value(y, x);
    Answer {
        pattern: sum_pattern(x.size, x.mode, y.pattern, x.pattern),
        carry: Some(carry),
        range: Some(!fits(x.size, x.mode, sum)),
    }
}

// The pattern of a difference.
fn difference_pattern(size: WordSize, mode: Mode, y: u64, x: u64) -> u64
    requires first { y < 2 ^ size.bits }
    requires second { x < 2 ^ size.bits }
    ensures { result ≡ difference_pattern_of size.bits mode y x }
{
    let patterns = size.patterns();
    let raised = y as u128 + patterns - x as u128;
    match mode {
        Mode::Ones => { if y < x { (raised - 1) as u64 } else { y - x } }
        _ => (raised % patterns) as u64,
    }
}

// The difference of two values.
fn difference_value(y: Word, x: Word) -> i128
    requires alike { AreAlike y x }
    ensures { result ≡ value x.size.bits x.mode y.pattern -ℤ value x.size.bits x.mode x.pattern }
{
    y.value() - x.value()
}

/// y - x. The carry is set where a borrow passes the word. In one's complement it comes around.
pub fn sub(y: Word, x: Word) -> Answer
    requires alike { AreAlike y x }
    ensures { result ≡ difference_of x.size.bits x.mode y.pattern x.pattern }
{
    let difference = difference_value(y, x);
    Answer {
        pattern: difference_pattern(x.size, x.mode, y.pattern, x.pattern),
        carry: Some(y.pattern < x.pattern),
        range: Some(!fits(x.size, x.mode, difference)),
    }
}
