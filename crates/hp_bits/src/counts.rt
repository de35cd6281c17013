// Counts and numbers of bits that a word gives by its magnitude, which is to be small enough.
ghost use Rattle.std.specs.Prelude.{◌≡◌, ◌<◌, ◌≤◌, ◌↔◌, IsErr, IfOk};
ghost use Rattle.hp_model.specs.Words.{magnitude};

use hp_words::Word;
use thiserror::Error;

/// A count above the word size, or a bit number at or above it: Error 2.
#[derive(Clone, Copy, Debug, PartialEq, Eq, Error)]
#[error("Error 2")]
pub struct Error2;

// The magnitude of a word, which is to be at most so much.
fn magnitude_within(x: Word, most: u8) -> Result<u8, Error2>
    ensures refused { IsErr result ↔ (most < magnitude x.size.bits x.mode x.pattern) }
    ensures value { IfOk result (λ n. n ≡ magnitude x.size.bits x.mode x.pattern) }
    ensures bound { IfOk result (λ n. n ≤ most) }
{
    let magnitude = x.magnitude();
    if magnitude > most as u64 {
        Err(Error2)
    } else {
        Ok(magnitude as u8)
    }
}

/// The magnitude of a word, which is to be at most its size.
pub fn count_in(x: Word) -> Result<u8, Error2>
    ensures refused { IsErr result ↔ (x.size.bits < magnitude x.size.bits x.mode x.pattern) }
    ensures value { IfOk result (λ n. n ≡ magnitude x.size.bits x.mode x.pattern) }
    ensures bound { IfOk result (λ n. n ≤ x.size.bits) }
{
    magnitude_within(x, x.size.bits)
}

/// The magnitude of a word, which is to be the number of one of its bits.
pub fn bit_in(x: Word) -> Result<u8, Error2>
    ensures refused { IsErr result ↔ (x.size.bits ≤ magnitude x.size.bits x.mode x.pattern) }
    ensures value { IfOk result (λ n. n ≡ magnitude x.size.bits x.mode x.pattern) }
    ensures bound { IfOk result (λ n. n < x.size.bits) }
{
    magnitude_within(x, x.size.bits - 1)
}
