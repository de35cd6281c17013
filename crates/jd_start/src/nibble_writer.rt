// The register nibbles as a start and the line of a run show them: one digit each, without the
// zeros at the end. Both writers call this one.
ghost use Rattle.std.specs.Prelude.{◌≡◌, ◌+◌, ◌<◌, ◌≤◌, ◌++◌, All, length, map, take, true};
ghost use Rattle.std.specs.Fmt.{digit_glyph};
ghost use Rattle.arrayvec.specs.ArrayString.{array_string_len};
ghost use Rattle.jd_model.specs.StartTexts.{after_m, nibbles_text};
ghost use Rattle.jd_start.specs.Written.{spaced};

use crate::nibbles::{MOST_NIBBLES, Nibbles};
use arrayvec::ArrayString;
use jd_numbers::push_digit;

/// How many nibbles are written: those up to the last one that isn't zero.
fn count_written(nibbles: &[u8]) -> usize
    ensures text { nibbles_text nibbles.now ≡ map (digit_glyph true) (take result nibbles.now) }
    ensures within { result ≤ length nibbles.now }
{
    let mut count = nibbles.len();
    while count > 0 {
        if nibbles[count - 1] != 0 {
            return count;
        }
        count -= 1;
    }
    0
}

/// Adds hexadecimal digits.
fn push_digits<const CAP: usize>(text: &mut ArrayString<CAP>, digits: &[u8])
    requires digits { All (λ digit. digit < 16) digits.now }
    requires room { array_string_len text.old + length digits.now ≤ CAP }
    ensures text { text.new.bytes ≡ text.old.bytes ++ map (digit_glyph true) digits.now }
    ensures len { array_string_len text.new ≡ array_string_len text.old + length digits.now }
{
    for digit in digits {
        push_digit(text, *digit);
    }
}

/// Adds a blank and the digits of nibbles from nibble 0 upwards. Adds nothing where all are zero.
pub fn push_nibbles<const CAP: usize>(text: &mut ArrayString<CAP>, nibbles: &Nibbles)
    requires { array_string_len text.old + MOST_NIBBLES + 1 ≤ CAP }
    ensures text { text.new.bytes ≡ text.old.bytes ++ spaced (after_m (nibbles_text nibbles.now)) }
    ensures len { array_string_len text.new ≤ array_string_len text.old + MOST_NIBBLES + 1 }
{
    let nibbles = nibbles.as_slice();
    let count = count_written(nibbles);
    if count > 0 {
        text.push(' ');
        push_digits(text, &nibbles[..count]);
    }
}
