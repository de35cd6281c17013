//! Words of digits as numbers, with the range that so many digits have.
ghost use Rattle.std.specs.Prelude.{◌≡◌, ◌+◌, ◌*◌, ◌^◌, ◌<◌, ◌≤◌, IfSome};
ghost use Rattle.jd_text.specs.Digits.{digit_value, are_digits, number_in, decimal_number, hexadecimal_number};

/// The value of a hexadecimal digit in either case, or 16.
pub fn digit_value(b: u8) -> u8
    ensures value { result ≡ digit_value b }
    ensures bound { result ≤ 16 }
{
    if b'0' <= b && b <= b'9' {
        b - b'0'
    } else if b'A' <= b && b <= b'F' {
        b - b'A' + 10
    } else if b'a' <= b && b <= b'f' {
        b - b'a' + 10
    } else {
        16
    }
}

/// Whether each byte of a word is a digit to a base of at most 16.
pub fn are_digits(base: u8, word: &[u8]) -> bool
    ensures { result ≡ are_digits base word.now }
{
    word.iter().all(|b| digit_value(*b) < base)
}

/// The number with a digit more.
fn with_digit(base: u8, n: u64, digit: u8) -> u64
    requires { n * base + digit < 2 ^ 64 }
    ensures { result ≡ n * base + digit }
{
    n * u64::from(base) + u64::from(digit)
}

/// The number of a word of digits to a base, at least one and at most so many.
fn number_in(base: u8, most: usize, word: &[u8]) -> Option<u64>
    requires base { 1 ≤ base }
    requires most { base ^ most ≤ 2 ^ 64 }
    ensures value { result ≡ number_in base most word.now }
    ensures bound { IfSome result (λ n. n < base ^ most) }
{
    if word.is_empty() || word.len() > most {
        return None;
    }
    let mut n = 0;
    for b in word {
        let digit = digit_value(*b);
        if digit >= base {
            return None;
        }
        n = with_digit(base, n, digit);
    }
    Some(n)
}

/// The number that a word of 1 to 10 decimal digits is. Leading zeros are allowed.
pub fn decimal_number(word: &[u8]) -> Option<u64>
    ensures value { result ≡ decimal_number word.now }
    ensures bound { IfSome result (λ n. n < 10 ^ 10) }
{
    number_in(10, 10, word)
}

/// The number that a word of 1 to 16 hexadecimal digits is, in either case. Leading zeros are allowed.
pub fn hexadecimal_number(word: &[u8]) -> Option<u64>
    ensures value { result ≡ hexadecimal_number word.now }
    ensures bound { IfSome result (λ n. n < 2 ^ 64) }
{
    number_in(16, 16, word)
}
