// Words and lines of a name and a number, added to a text of any room. Every writer of problems,
// starts and runs stands on them.
ghost use Rattle.std.specs.Prelude.{◌≡◌, ◌+◌, ◌≤◌, ◌∷◌, [], ◌++◌, length, decimal};
ghost use Rattle.arrayvec.specs.ArrayString.{array_string_len};
ghost use Rattle.jd_text.specs.Words.{line};
ghost use Rattle.jd_text.specs.Digits.{hexadecimal};

use arrayvec::ArrayString;
use jd_numbers::{push_decimal, push_hexadecimal};

/// Adds a blank and a word.
pub fn push_word<const CAP: usize>(text: &mut ArrayString<CAP>, word: &str)
    requires { array_string_len text.old + length word.now + 1 ≤ CAP }
    ensures text { text.new.bytes ≡ text.old.bytes ++ 32 ∷ word.now }
    ensures len { array_string_len text.new ≡ array_string_len text.old + length word.now + 1 }
{
    text.push(' ');
    text.push_str(word);
}

/// Adds a blank and a number in hexadecimal digits.
pub fn push_number<const CAP: usize>(text: &mut ArrayString<CAP>, n: u64)
    requires { array_string_len text.old + 17 ≤ CAP }
    ensures text { text.new.bytes ≡ text.old.bytes ++ 32 ∷ hexadecimal n }
    ensures len { array_string_len text.new ≤ array_string_len text.old + 17 }
{
    text.push(' ');
    push_hexadecimal(text, n);
}

/// Adds the line of a name and a number in decimal digits.
pub fn push_decimal_line<const CAP: usize>(text: &mut ArrayString<CAP>, name: &str, n: u64)
    requires { array_string_len text.old + length name.now + 22 ≤ CAP }
    ensures text { text.new.bytes ≡ text.old.bytes ++ line (name.now ∷ decimal n ∷ []) }
    ensures len { array_string_len text.new ≤ array_string_len text.old + length name.now + 22 }
{
    text.push_str(name);
    text.push(' ');
    push_decimal(text, n);
    text.push('\n');
}

/// Adds the line of a name and a number in hexadecimal digits.
pub fn push_number_line<const CAP: usize>(text: &mut ArrayString<CAP>, name: &str, n: u64)
    requires { array_string_len text.old + length name.now + 18 ≤ CAP }
    ensures text { text.new.bytes ≡ text.old.bytes ++ line (name.now ∷ hexadecimal n ∷ []) }
    ensures len { array_string_len text.new ≤ array_string_len text.old + length name.now + 18 }
{
    text.push_str(name);
    push_number(text, n);
    text.push('\n');
}
