// Digit entry.
ghost use Rattle.std.specs.Prelude.{◌≡◌, ℕ, ◌^◌, ◌<◌, IfSome, Some, None, if◌then◌else◌};
ghost use Rattle.hp_model.specs.ControlStep.{greatest_entry as greatest_entry_of, longer_entry as longer_entry_of, is_ignored};
ghost use Rattle.hp_control.specs.Controls.{control_of, Listing};

use crate::control::Control;
use hp_ops::HexDigit;
use hp_words::{Base, Mode, radix};

/// The greatest number that can be entered.
fn greatest_entry(control: &Control) -> u64
    ensures value { (listing : Listing)
        → result ≡ greatest_entry_of (control_of control.now listing) }
    ensures bound { result < 2 ^ control.now.size.bits }
{
    let mask = control.size.mask();
    match control.mode {
        Mode::Unsigned => mask,
        _ => match control.base {
            Base::Dec => mask / 2,
            _ => mask,
        },
    }
}

/// The number with one more digit.
fn longer_entry(control: &Control, digit: HexDigit) -> u128
    ensures { (listing : Listing)
        → result ≡ longer_entry_of (control_of control.now listing) digit.value }
{
    match control.entry {
        None => digit.value as u128,
        Some(entry) => entry as u128 * radix(control.base) as u128 + digit.value as u128,
    }
}

/// The number that is entered after one more digit. None where the digit is ignored, as it isn't
/// below the base or the number would be too great.
pub fn new_entry(control: &Control, digit: HexDigit) -> Option<u64>
    ensures value { (listing : Listing) → result
        ≡ (if is_ignored (control_of control.now listing) digit.value then None
        else Some (longer_entry_of (control_of control.now listing) digit.value)) }
    ensures bound { IfSome result (λ n. n < 2 ^ control.now.size.bits) }
{
    let number = longer_entry(control, digit);
    let greatest = greatest_entry(control);
    if digit.value as u64 >= radix(control.base) || number > greatest as u128 {
        None
    } else {
        Some(number as u64)
    }
}
