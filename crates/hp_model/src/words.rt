// The words of a key file: those of keys, and those of machines.
ghost use Rattle.std.specs.Prelude.{◌≡◌, ◌≢◌, [], ◌∷◌, length};
ghost use Rattle.hp_model.specs.KeyWords.{key_of_word as key_of, extent_of_word};

use crate::{Extent, Key};

/// The key whose word has one byte.
fn key_of_letter(byte: u8) -> Option<Key>
    ensures { result ≡ key_of (byte ∷ []) }
{
    match byte {
        b'0' => Some(Key::Digit0),
        b'1' => Some(Key::Digit1),
        b'2' => Some(Key::Digit2),
        b'3' => Some(Key::Digit3),
        b'4' => Some(Key::Digit4),
        b'5' => Some(Key::Digit5),
        b'6' => Some(Key::Digit6),
        b'7' => Some(Key::Digit7),
        b'8' => Some(Key::Digit8),
        b'9' => Some(Key::Digit9),
        b'A' => Some(Key::DigitA),
        b'B' => Some(Key::DigitB),
        b'C' => Some(Key::DigitC),
        b'D' => Some(Key::DigitD),
        b'E' => Some(Key::DigitE),
        b'F' => Some(Key::DigitF),
        b'+' => Some(Key::Plus),
        b'-' => Some(Key::Minus),
        b'*' => Some(Key::Times),
        b'/' => Some(Key::Divide),
        b'.' => Some(Key::Point),
        b'f' => Some(Key::ShiftF),
        b'g' => Some(Key::ShiftG),
        _ => None,
    }
}

/// The key whose word has several bytes.
fn key_of_name(word: &[u8]) -> Option<Key>
    requires { length word.now ≢ 1 }
    ensures { result ≡ key_of word.now }
{
    match word {
        b"ENTER" => Some(Key::Enter),
        b"CHS" => Some(Key::ChangeSign),
        b"GSB" => Some(Key::Gosub),
        b"GTO" => Some(Key::Goto),
        b"HEX" => Some(Key::ToHex),
        b"DEC" => Some(Key::ToDec),
        b"OCT" => Some(Key::ToOct),
        b"BIN" => Some(Key::ToBin),
        b"R/S" => Some(Key::RunStop),
        b"SST" => Some(Key::SingleStep),
        b"RDN" => Some(Key::RollDown),
        b"x<>y" => Some(Key::Exchange),
        b"BSP" => Some(Key::Backspace),
        b"ON" => Some(Key::On),
        b"STO" => Some(Key::Store),
        b"RCL" => Some(Key::Recall),
        _ => None,
    }
}

impl Key {
    /// The key that a word of a key file means, or None where it is no key's word. Upper and lower case
    /// are told apart.
    pub fn of_word(word: &[u8]) -> Option<Key>
        ensures { result ≡ key_of word.now }
    {
        match word {
            [byte] => key_of_letter(*byte),
            _ => key_of_name(word),
        }
    }
}

impl Extent {
    /// The size of the machine that a word names at the head of a key file.
    pub fn of_word(word: &[u8]) -> Option<Extent>
        ensures { result ≡ extent_of_word word.now }
    {
        match word {
            b"M203" => Some(Extent::Standard),
            b"M609" => Some(Extent::Large),
            _ => None,
        }
    }
}
