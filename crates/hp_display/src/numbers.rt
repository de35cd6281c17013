// The number part of the display.
ghost use Rattle.std.specs.Prelude.{◌≡◌, nat_lt, ℕ, ◌+◌, ◌-◌, ◌*◌, ◌/◌, ◌%◌, ◌^◌, ◌<◌, ◌≤◌, ◌++◌, length, true, codes, [], ◌∷◌};
ghost use Rattle.hp_model.specs.Display.{number_text, has_minus as has_minus_of, base_letter as letter_of, text_if, filled_to as filled_to_of, digits_for as digits_for_of};
ghost use Rattle.hp_display.specs.Windows.{window_text, has_place};
ghost use Rattle.hp_core.specs.Machines.{control_of, data_of};
ghost use Rattle.arrayvec.specs.ArrayString.{array_string_len};

use crate::digits::{push_decimal_places, push_places};
use arrayvec::ArrayString;
use hp_core::Machine;
use hp_model::{Base, Mode};

/// Whether a minus stands before the decimal digits.
fn has_minus(machine: &Machine) -> bool
    ensures { result ≡ has_minus_of Base.Dec (control_of machine.now) (data_of machine.now) }
{
    let below_zero = machine.x_word().value() < 0;
    match machine.control.mode {
        Mode::Ones => below_zero || machine.content.x == machine.control.size.mask(),
        _ => below_zero,
    }
}

/// The letter of a base.
fn base_letter(base: Base) -> char
    ensures value { result ∷ [] ≡ letter_of base }
    ensures ascii { result < 128 }
{
    match base {
        Base::Hex => 'h',
        Base::Dec => 'd',
        Base::Oct => 'o',
        Base::Bin => 'b',
    }
}

/// A text is added where that is said.
pub fn push_if(text: &mut ArrayString<32>, shown: bool, mark: &str)
    requires room { array_string_len text.old + length mark.now ≤ 32 }
    ensures text { text.new.bytes ≡ text.old.bytes ++ text_if shown mark.now }
    ensures len { array_string_len text.new ≤ array_string_len text.old + length mark.now }
{
    if shown {
        text.push_str(mark);
    }
}

/// The least number of digits that holds the word.
fn digits_for(bits: u8, base: Base) -> u32
    requires { bits ≤ 64 }
    ensures { result ≡ digits_for_of bits base }
{
    let bits = bits as u32;
    match base {
        Base::Hex => (bits + 3) / 4,
        Base::Oct => (bits + 2) / 3,
        Base::Bin => bits,
        Base::Dec => 0,
    }
}

/// How many digits zeros fill the number to.
fn filled_to(machine: &Machine, base: Base) -> u32
    ensures { result ≡ filled_to_of base (control_of machine.now) (data_of machine.now) }
{
    if machine.content.flags[3] {
        digits_for(machine.control.size.bits(), base)
    } else {
        0
    }
}

/// The digits of a window. Answers whether there are more to their left.
fn push_window(text: &mut ArrayString<32>, machine: &Machine, base: Base, first: u8) -> bool
    requires first { first ≤ 56 }
    requires room { array_string_len text.old ≤ 24 }
    ensures text { text.new.bytes ≡ text.old.bytes ++ window_text base first machine.now }
    ensures len { array_string_len text.new ≤ array_string_len text.old + 8 }
    ensures more { result ≡ has_place base (first + 8) machine.now }
{
    let filled = filled_to(machine, base);
    let x = machine.content.x;
    match base {
        Base::Hex => push_places(text, x, 4, filled, first as u32),
        Base::Oct => push_places(text, x, 3, filled, first as u32),
        Base::Bin => push_places(text, x, 1, filled, first as u32),
        Base::Dec => push_decimal_places(text, machine.x_word().magnitude(), first as usize),
    }
}

/// Whether a minus stands before the number.
fn is_negative(machine: &Machine, base: Base) -> bool
    ensures { result ≡ has_minus_of base (control_of machine.now) (data_of machine.now) }
{
    match base {
        Base::Dec => has_minus(machine),
        _ => false,
    }
}

/// What stands behind the number's eight places: whether more digits stand before them, the base and
/// whether the window is another than the first.
fn push_marks(text: &mut ArrayString<32>, more: bool, base: Base, window: u8)
    requires room { array_string_len text.old ≤ 17 }
    ensures text { text.new.bytes ≡ text.old.bytes
        ++ codes " " ++ text_if more (codes ".") ++ letter_of base ++ text_if (nat_lt 0 window) (codes ".") }
    ensures len { array_string_len text.new ≤ array_string_len text.old + 4 }
{
    text.push(' ');
    push_if(text, more, ".");
    text.push(base_letter(base));
    push_if(text, window > 0, ".");
}

/// The number part is added to a text.
pub fn push_number(text: &mut ArrayString<32>, machine: &Machine, base: Base, window: u8)
    requires window { window ≤ 7 }
    requires room { array_string_len text.old ≤ 8 }
    ensures text { text.new.bytes ≡ text.old.bytes
        ++ number_text base window (control_of machine.now) (data_of machine.now) }
    ensures len { array_string_len text.new ≤ array_string_len text.old + 13 }
{
    push_if(text, is_negative(machine, base), "-");
    let more = push_window(text, machine, base, 8 * window);
    push_marks(text, more, base, window);
}
