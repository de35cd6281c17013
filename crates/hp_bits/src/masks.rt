// Masks: so many ones at one end of a word, from none to all.
ghost use Rattle.std.specs.Prelude.{◌≡◌, ◌^◌, ◌<◌, ◌≤◌, ◌↔◌, IsErr, IfOk};
ghost use Rattle.hp_model.specs.Words.{magnitude};
ghost use Rattle.hp_model.specs.WordOperations.{mask_left_pattern, mask_right_pattern};

use crate::counts::{Error2, count_in};
use hp_words::{Word, WordSize};

// So many ones from the left.
fn mask_from_left(size: WordSize, n: u8) -> u64
    requires { n ≤ size.bits }
    ensures value { result ≡ mask_left_pattern size.bits n }
    ensures bound { result < 2 ^ size.bits }
{
    let patterns = size.patterns();
    (patterns - (patterns >> n)) as u64
}

// So many ones from the right.
fn mask_from_right(size: WordSize, n: u8) -> u64
    requires { n ≤ size.bits }
    ensures value { result ≡ mask_right_pattern n }
    ensures bound { result < 2 ^ size.bits }
{
    ((1u128 << n) - 1) as u64
}

/// As many ones as x says, from the left.
pub fn mask_left(x: Word) -> Result<u64, Error2>
    ensures refused { IsErr result ↔ (x.size.bits < magnitude x.size.bits x.mode x.pattern) }
    ensures value { IfOk result (λ mask. mask
        ≡ mask_left_pattern x.size.bits (magnitude x.size.bits x.mode x.pattern)) }
    ensures bound { IfOk result (λ mask. mask < 2 ^ x.size.bits) }
{
    let n = count_in(x)?;
    Ok(mask_from_left(x.size, n))
}

/// As many ones as x says, from the right.
pub fn mask_right(x: Word) -> Result<u64, Error2>
    ensures refused { IsErr result ↔ (x.size.bits < magnitude x.size.bits x.mode x.pattern) }
    ensures value { IfOk result (λ mask. mask
        ≡ mask_right_pattern (magnitude x.size.bits x.mode x.pattern)) }
    ensures bound { IfOk result (λ mask. mask < 2 ^ x.size.bits) }
{
    let n = count_in(x)?;
    Ok(mask_from_right(x.size, n))
}
