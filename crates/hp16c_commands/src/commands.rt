//! Which command the program's words name. Words that aren't exactly a command's are none, so that
//! nothing is guessed.
ghost use Rattle.std.specs.Prelude.{◌≡◌, map};
ghost use Rattle.std.specs.String.{string_bytes};
ghost use Rattle.hp16c_commands.specs.Commands.{command_of, generated_number};

use crate::whole_inputs::WholeInput;
use jd_numbers::decimal_number;

/// The commands.
#[derive(Clone, Copy, Debug, PartialEq, Eq)]
pub enum Command {
    /// Presses the keys of a key file, and writes the display of each line.
    Keys,
    /// Reads the whole input, and writes the answer.
    Read(WholeInput),
    /// Judges the problem that is generated from a number. Reads nothing.
    Generate(u32),
}

/// The number of a word of 1 to 10 decimal digits, below 2^32.
fn number_of(word: &[u8]) -> Option<u32>
    ensures { result ≡ generated_number word.now }
{
    let n = decimal_number(word)?;
    if n < 1 << 32 { Some(n as u32) } else { None }
}

impl Command {
    /// The command that the words are, if they are one.
    pub fn of_words(words: &[String]) -> Option<Command>
        ensures { result ≡ command_of (map string_bytes words.now) }
    {
        match words {
            [word] if word.as_str() == "keys" => Some(Command::Keys),
            [word] if word.as_str() == "lrat" => Some(Command::Read(WholeInput::Lrat)),
            [word] if word.as_str() == "asm" => Some(Command::Read(WholeInput::Assemble)),
            [word] if word.as_str() == "list" => Some(Command::Read(WholeInput::List)),
            [word] if word.as_str() == "replay" => Some(Command::Read(WholeInput::Replay)),
            [word] if word.as_str() == "judge" => Some(Command::Read(WholeInput::Judge)),
            [word] if word.as_str() == "check" => Some(Command::Read(WholeInput::Check)),
            [word] if word.as_str() == "debug" => Some(Command::Read(WholeInput::Debug)),
            [word] if word.as_str() == "spec" => Some(Command::Read(WholeInput::Spec)),
            [word] if word.as_str() == "short" => Some(Command::Read(WholeInput::Short)),
            [word, number] if word.as_str() == "gen" => {
                let n = number_of(number.as_bytes())?;
                Some(Command::Generate(n))
            }
            _ => None,
        }
    }
}
