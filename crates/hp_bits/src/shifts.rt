// Shifts and single rotations: a bit leaves at one end, which is the new carry, and one enters at
// the other.
ghost use Rattle.std.specs.Prelude.{◌≡◌, ◌+◌, ◌-◌, ◌*◌, ◌/◌, ◌%◌, ◌^◌, ◌<◌, ◌≤◌, Bool};
ghost use Rattle.hp_model.specs.Words.{bit};
ghost use Rattle.hp_model.specs.Operations.{left, right, left_carry, right_carry};
ghost use Rattle.hp_model.specs.WordOperations.{carrying, bit_number, top_bit, shifted_left_of, shifted_right_of, shifted_arithmetic_of, rotated_of};

use hp_words::{Answer, Mode, Word};

// A pattern that sets or clears the carry.
fn carrying(pattern: u64, carry: bool) -> Answer
    ensures { result ≡ carrying pattern carry }
{
    Answer {
        pattern,
        carry: Some(carry),
        range: None,
    }
}

// A bit as a number.
fn number(bit: bool) -> u64
    ensures value { result ≡ bit_number bit }
    ensures bound { result ≤ 1 }
{
    bit as u64
}

// Whether the top bit is 1.
fn top_bit(x: Word) -> bool
    ensures { result ≡ top_bit x.size.bits x.pattern }
{
    x.pattern >> (x.size.bits - 1) & 1 == 1
}

// Whether bit 0 is 1.
fn low_bit(x: Word) -> bool
    ensures { result ≡ bit x.pattern 0 }
{
    x.pattern & 1 == 1
}

// One place to the left, where a bit enters below.
fn moved_left(x: Word, enters: bool) -> Answer
    ensures value { result ≡ carrying (2 * x.pattern % 2 ^ x.size.bits + bit_number enters)
        (top_bit x.size.bits x.pattern) }
    ensures bound { result.pattern < 2 ^ x.size.bits }
{
    let below = x.pattern & (x.size.half() - 1);
    carrying(2 * below + number(enters), top_bit(x))
}

// One place to the right, where a bit enters at the top.
fn moved_right(x: Word, enters: bool) -> Answer
    ensures value { result ≡ carrying (x.pattern / 2 + bit_number enters * 2 ^ (x.size.bits - 1))
        (bit x.pattern 0) }
    ensures bound { result.pattern < 2 ^ x.size.bits }
{
    carrying(x.pattern / 2 + number(enters) * x.size.half(), low_bit(x))
}

/// Shift left: 0 enters.
pub fn sl(x: Word) -> Answer
    ensures value { result ≡ shifted_left_of x.size.bits x.pattern }
    ensures bound { result.pattern < 2 ^ x.size.bits }
{
    moved_left(x, false)
}

/// Shift right: 0 enters.
pub fn sr(x: Word) -> Answer
    ensures value { result ≡ shifted_right_of x.pattern }
    ensures bound { result.pattern < 2 ^ x.size.bits }
{
    moved_right(x, false)
}

/// Arithmetic shift right: the top bit stays, but for unsigned words, where 0 enters.
pub fn asr(x: Word) -> Answer
    ensures value { result ≡ shifted_arithmetic_of x.size.bits x.mode x.pattern }
    ensures bound { result.pattern < 2 ^ x.size.bits }
{
    match x.mode {
        Mode::Unsigned => moved_right(x, false),
        _ => moved_right(x, top_bit(x)),
    }
}

/// Rotate left. The old carry plays no part.
pub fn rl(x: Word) -> Answer
    ensures value { (carry : Bool) → result ≡ rotated_of left x.size.bits x.pattern carry }
    ensures bound { result.pattern < 2 ^ x.size.bits }
{
    moved_left(x, top_bit(x))
}

/// Rotate right. The old carry plays no part.
pub fn rr(x: Word) -> Answer
    ensures value { (carry : Bool) → result ≡ rotated_of right x.size.bits x.pattern carry }
    ensures bound { result.pattern < 2 ^ x.size.bits }
{
    moved_right(x, low_bit(x))
}

/// Rotate left through the carry, which enters.
pub fn rlc(x: Word, carry: bool) -> Answer
    ensures value { result ≡ rotated_of left_carry x.size.bits x.pattern carry }
    ensures bound { result.pattern < 2 ^ x.size.bits }
{
    moved_left(x, carry)
}

/// Rotate right through the carry, which enters.
pub fn rrc(x: Word, carry: bool) -> Answer
    ensures value { result ≡ rotated_of right_carry x.size.bits x.pattern carry }
    ensures bound { result.pattern < 2 ^ x.size.bits }
{
    moved_right(x, carry)
}
