//! Digits and numbers added to a text of fixed room, whatever the room is. Whoever writes digits
//! writes them by these.
ghost use Rattle.std.specs.Prelude.{◌≡◌, ◌+◌, ◌<◌, ◌≤◌, ◌∷◌, [], ◌++◌, length, if◌then◌else◌, true, decimal};
ghost use Rattle.std.specs.Fmt.{digit_glyph};
ghost use Rattle.arrayvec.specs.ArrayString.{array_string_len};
ghost use Rattle.jd_text.specs.Digits.{hexadecimal};

use arrayvec::ArrayString;
use itoa::Buffer;

/// Adds a hexadecimal digit, in upper case.
pub fn push_digit<const CAP: usize>(text: &mut ArrayString<CAP>, digit: u8)
    requires digit { digit < 16 }
    requires room { array_string_len text.old < CAP }
    ensures text { text.new.bytes ≡ text.old.bytes ++ digit_glyph true digit ∷ [] }
    ensures len { array_string_len text.new ≡ array_string_len text.old + 1 }
{
    let glyph = if digit < 10 {
        b'0' + digit
    } else {
        b'A' + (digit - 10)
    };
    text.push(glyph as char);
}

/// The digit of a truth value, as flags are written: 1 where it holds, else 0.
pub fn flag_digit(flag: bool) -> char
    ensures digit { result ≡ (if flag then 49 else 48) }
    ensures ascii { result < 128 }
{
    if flag { '1' } else { '0' }
}

/// Adds the hexadecimal digits of a number.
#[tactic(auto, using(crate::proofs::Hexadecimals::hexadecimals, std::proofs::lemmas::Grind::common_steps))]
fn push_digits(text: &mut ArrayString<16>, n: u64)
    requires { array_string_len text.old + length (hexadecimal n) ≤ 16 }
    ensures { text.new.bytes ≡ text.old.bytes ++ hexadecimal n }
{
    if n < 16 {
        push_digit(text, n as u8);
    } else {
        push_digits(text, n / 16);
        push_digit(text, (n % 16) as u8);
    }
}

/// A number in hexadecimal digits, in upper case and without leading zeros.
#[tactic(auto, using(crate::proofs::Hexadecimals::hexadecimals, std::proofs::lemmas::Grind::common_steps))]
pub fn hexadecimal(n: u64) -> ArrayString<16>
    ensures { result.bytes ≡ hexadecimal n }
{
    let mut text = ArrayString::new();
    push_digits(&mut text, n);
    text
}

/// Adds a number in hexadecimal digits, in upper case and without leading zeros.
pub fn push_hexadecimal<const CAP: usize>(text: &mut ArrayString<CAP>, n: u64)
    requires { array_string_len text.old + 16 ≤ CAP }
    ensures text { text.new.bytes ≡ text.old.bytes ++ hexadecimal n }
    ensures len { array_string_len text.new ≤ array_string_len text.old + 16 }
{
    text.push_str(hexadecimal(n).as_str());
}

/// Adds a number in decimal digits, without leading zeros.
pub fn push_decimal<const CAP: usize>(text: &mut ArrayString<CAP>, n: u64)
    requires { array_string_len text.old + 20 ≤ CAP }
    ensures text { text.new.bytes ≡ text.old.bytes ++ decimal n }
    ensures len { array_string_len text.new ≤ array_string_len text.old + 20 }
{
    let mut buffer = Buffer::new();
    text.push_str(buffer.format(n));
}
