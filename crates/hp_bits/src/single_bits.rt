// One bit of a word, whose number another word gives.
ghost use Rattle.std.specs.Prelude.{◌≡◌, ◌^◌, ◌<◌, ◌≤◌, ◌↔◌, IsErr, IfOk};
ghost use Rattle.hp_model.specs.Words.{magnitude, bit};
ghost use Rattle.hp_model.specs.WordOperations.{with_bit, without_bit};
ghost use Rattle.hp_words.specs.Alike.{AreAlike};

use crate::counts::{Error2, bit_in};
use hp_words::Word;

/// y with the bit whose number is x set.
pub fn set_bit(y: Word, x: Word) -> Result<u64, Error2>
    requires alike { AreAlike y x }
    ensures refused { IsErr result ↔ (x.size.bits ≤ magnitude x.size.bits x.mode x.pattern) }
    ensures value { IfOk result (λ word. word
        ≡ with_bit y.pattern (magnitude x.size.bits x.mode x.pattern)) }
    ensures bound { IfOk result (λ word. word < 2 ^ x.size.bits) }
{
    let n = bit_in(x)?;
    Ok(y.pattern | 1 << n)
}

/// y with the bit whose number is x cleared.
pub fn clear_bit(y: Word, x: Word) -> Result<u64, Error2>
    requires alike { AreAlike y x }
    ensures refused { IsErr result ↔ (x.size.bits ≤ magnitude x.size.bits x.mode x.pattern) }
    ensures value { IfOk result (λ word. word
        ≡ without_bit y.pattern (magnitude x.size.bits x.mode x.pattern)) }
    ensures bound { IfOk result (λ word. word < 2 ^ x.size.bits) }
{
    let n = bit_in(x)?;
    Ok(y.pattern & !(1 << n))
}

/// Whether the bit of y whose number is x is 1.
pub fn test_bit(y: Word, x: Word) -> Result<bool, Error2>
    requires alike { AreAlike y x }
    ensures refused { IsErr result ↔ (x.size.bits ≤ magnitude x.size.bits x.mode x.pattern) }
    ensures value { IfOk result (λ set. set
        ≡ bit y.pattern (magnitude x.size.bits x.mode x.pattern)) }
{
    let n = bit_in(x)?;
    Ok(y.pattern >> n & 1 == 1)
}
