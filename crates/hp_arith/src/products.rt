// Multiplication. An unsigned product of 64 bits fits no `i128`, so the unsigned mode goes by
// itself.
ghost use Rattle.std.specs.Prelude.{◌≡◌, ◌≢◌, ◌^◌, ◌≤◌, ◌*ℤ◌, nat_abs};
ghost use Rattle.hp_model.specs.declared.Mode.{Mode};
ghost use Rattle.hp_model.specs.Words.{value};
ghost use Rattle.hp_model.specs.WordOperations.{product_of};
ghost use Rattle.hp_words.specs.Alike.{AreAlike};

use crate::signs::ranged;
use hp_words::{Answer, Mode, Word};

// The value of a word in a signed mode.
fn signed_value(x: Word) -> i128
    requires { x.mode ≢ Mode.Unsigned }
    ensures value { result ≡ value x.size.bits x.mode x.pattern }
    ensures bound { nat_abs result ≤ 2 ^ 63 }
{
    x.value()
}

// The product of two values of signed words.
fn product(y: i128, x: i128) -> i128
    requires first { nat_abs y ≤ 2 ^ 63 }
    requires second { nat_abs x ≤ 2 ^ 63 }
    ensures { result ≡ y *ℤ x }
{
    y * x
}

/// y times x.
pub fn mul(y: Word, x: Word) -> Answer
    requires alike { AreAlike y x }
    ensures { result ≡ product_of x.size.bits x.mode y.pattern x.pattern }
{
    match x.mode {
        Mode::Unsigned => {
            let product = y.pattern as u128 * x.pattern as u128;
            Answer {
                pattern: (product % x.size.patterns()) as u64,
                carry: None,
                range: Some(x.size.patterns() <= product),
            }
        }
        mode => ranged(x.size, mode, product(signed_value(y), signed_value(x))),
    }
}
