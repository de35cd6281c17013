// Rotations by a count, in one step each: n places to the left bring the n upper bits to the low
// end.
ghost use Rattle.std.specs.Prelude.{◌≡◌, ◌+◌, ◌-◌, ◌*◌, ◌^◌, ◌<◌, ◌≤◌, ◌↔◌, ◌==◌, Bool, Some, None, if◌then◌else◌, IsErr, IfOk};
ghost use Rattle.hp_model.specs.Words.{magnitude};
ghost use Rattle.hp_model.specs.Operations.{left, right, left_carry, right_carry};
ghost use Rattle.hp_model.specs.WordOperations.{rotated_times_of, bit_number};
ghost use Rattle.hp_bits.specs.Places.{moved_round};
ghost use Rattle.hp_words.specs.Alike.{AreAlike};

use crate::counts::{Error2, count_in};
use hp_words::{Answer, Word};

// A number of so many bits after n places to the left.
fn moved_round(number: u128, bits: u8, n: u8) -> u128
    requires few { bits ≤ 65 }
    requires inside { number < 2 ^ bits }
    requires count { n ≤ bits }
    ensures value { result ≡ moved_round bits n number }
    ensures bound { result < 2 ^ bits }
{
    let low = bits - n;
    let lower = number & ((1 << low) - 1);
    (lower << n) + (number >> low)
}

// The answer of n rotations. The carry stays where there is none.
fn after(n: u8, pattern: u64, carry: bool) -> Answer
    ensures { result ≡ record {
      pattern = pattern;
      carry = (if n == 0 then None else Some carry);
      range = None;
    } }
{
    let carry = if n == 0 { None } else { Some(carry) };
    Answer {
        pattern,
        carry,
        range: None,
    }
}

// n rotations to the left.
fn turn_left(y: Word, n: u8) -> Answer
    requires { n ≤ y.size.bits }
    ensures value { (carry : Bool) → result ≡ rotated_times_of left y.size.bits n y.pattern carry }
    ensures bound { result.pattern < 2 ^ y.size.bits }
{
    let pattern = moved_round(y.pattern as u128, y.size.bits, n) as u64;
    after(n, pattern, pattern & 1 == 1)
}

// n rotations to the right.
fn turn_right(y: Word, n: u8) -> Answer
    requires { n ≤ y.size.bits }
    ensures value { (carry : Bool) → result ≡ rotated_times_of right y.size.bits n y.pattern carry }
    ensures bound { result.pattern < 2 ^ y.size.bits }
{
    let pattern = moved_round(y.pattern as u128, y.size.bits, y.size.bits - n) as u64;
    after(n, pattern, pattern >= y.size.half())
}

// The carry and a word as one number, whose top bit is the carry.
fn with_carry(y: Word, carry: bool) -> u128
    ensures value { result ≡ bit_number carry * 2 ^ y.size.bits + y.pattern }
    ensures bound { result < 2 ^ (y.size.bits + 1) }
{
    carry as u128 * y.size.patterns() + y.pattern as u128
}

// n rotations to the left through the carry.
fn turn_left_with_carry(y: Word, n: u8, carry: bool) -> Answer
    requires { n ≤ y.size.bits }
    ensures value { result ≡ rotated_times_of left_carry y.size.bits n y.pattern carry }
    ensures bound { result.pattern < 2 ^ y.size.bits }
{
    let turned = moved_round(with_carry(y, carry), y.size.bits + 1, n);
    let mask = y.size.patterns() - 1;
    after(n, (turned & mask) as u64, turned > mask)
}

// n rotations to the right through the carry.
fn turn_right_with_carry(y: Word, n: u8, carry: bool) -> Answer
    requires { n ≤ y.size.bits }
    ensures value { result ≡ rotated_times_of right_carry y.size.bits n y.pattern carry }
    ensures bound { result.pattern < 2 ^ y.size.bits }
{
    let turned = moved_round(with_carry(y, carry), y.size.bits + 1, y.size.bits + 1 - n);
    let mask = y.size.patterns() - 1;
    after(n, (turned & mask) as u64, turned > mask)
}

/// y rotated left as many times as x says. The old carry plays no part.
pub fn rln(y: Word, x: Word) -> Result<Answer, Error2>
    requires alike { AreAlike y x }
    ensures refused { IsErr result ↔ (x.size.bits < magnitude x.size.bits x.mode x.pattern) }
    ensures value { IfOk result (λ answer. (carry : Bool) → answer ≡ rotated_times_of left
        x.size.bits (magnitude x.size.bits x.mode x.pattern) y.pattern carry) }
    ensures bound { IfOk result (λ answer. answer.pattern < 2 ^ x.size.bits) }
{
    let n = count_in(x)?;
    Ok(turn_left(y, n))
}

/// y rotated right as many times as x says. The old carry plays no part.
pub fn rrn(y: Word, x: Word) -> Result<Answer, Error2>
    requires alike { AreAlike y x }
    ensures refused { IsErr result ↔ (x.size.bits < magnitude x.size.bits x.mode x.pattern) }
    ensures value { IfOk result (λ answer. (carry : Bool) → answer ≡ rotated_times_of right
        x.size.bits (magnitude x.size.bits x.mode x.pattern) y.pattern carry) }
    ensures bound { IfOk result (λ answer. answer.pattern < 2 ^ x.size.bits) }
{
    let n = count_in(x)?;
    Ok(turn_right(y, n))
}

/// y rotated left through the carry as many times as x says.
pub fn rlcn(y: Word, x: Word, carry: bool) -> Result<Answer, Error2>
    requires alike { AreAlike y x }
    ensures refused { IsErr result ↔ (x.size.bits < magnitude x.size.bits x.mode x.pattern) }
    ensures value { IfOk result (λ answer. answer ≡ rotated_times_of left_carry
        x.size.bits (magnitude x.size.bits x.mode x.pattern) y.pattern carry) }
    ensures bound { IfOk result (λ answer. answer.pattern < 2 ^ x.size.bits) }
{
    let n = count_in(x)?;
    Ok(turn_left_with_carry(y, n, carry))
}

/// y rotated right through the carry as many times as x says.
pub fn rrcn(y: Word, x: Word, carry: bool) -> Result<Answer, Error2>
    requires alike { AreAlike y x }
    ensures refused { IsErr result ↔ (x.size.bits < magnitude x.size.bits x.mode x.pattern) }
    ensures value { IfOk result (λ answer. answer ≡ rotated_times_of right_carry
        x.size.bits (magnitude x.size.bits x.mode x.pattern) y.pattern carry) }
    ensures bound { IfOk result (λ answer. answer.pattern < 2 ^ x.size.bits) }
{
    let n = count_in(x)?;
    Ok(turn_right_with_carry(y, n, carry))
}
