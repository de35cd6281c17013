//! What a line of a script is: keys, a machine and keys, or a command alone. A line is looked at twice, once
//! before any line is done and once when it is, so that the text of a script needs no memory.
ghost use Rattle.std.specs.Prelude.{◌≡◌, ◌≤◌, length, is_some, option_map, IfSome, MatchOption, None};
ghost use Rattle.jd_text.specs.Words.{words_of};
ghost use Rattle.jd_text.specs.Places.{words_at};
ghost use Rattle.hp_debug.specs.ScriptLines.{are_key_words, line_number, command_named, command_with, command_of, machine_in, script_line};
ghost use Rattle.hp_debug.specs.ParsedLines.{line_of_parsed, HasLineNumber, FitsLine, NamesMachine};

use crate::commands::Command;
use hp_keys::Key;
use hp_model::Extent;
use jd_numbers::decimal_number;
use jd_text::{is_text, next_word};

/// What a line is. The keys themselves stay in its bytes.
#[derive(Clone, Copy, Debug, PartialEq, Eq)]
pub enum ParsedLine {
    /// All its words are keys.
    Keys,
    /// It begins with a machine of its own, and the keys stand from this place on.
    NewMachine(Extent, usize),
    /// A command alone.
    Command(Command),
}

/// Whether all words of a line from a place on are key words.
fn are_keys(line: &[u8], from: usize) -> bool
    requires { from ≤ length line.now }
    ensures { result ≡ are_key_words (words_at line.now from) }
{
    let mut at = from;
    'words: while let Some((word, end)) = next_word(line, at) {
        if Key::of_word(word).is_none() {
            return false;
        }
        at = end;
    }
    true
}

/// The number of a line of a program, in 1 to 3 decimal digits.
fn line_number(word: &[u8]) -> Option<u16>
    ensures value { result ≡ line_number word.now }
    ensures bounds { IfSome result (λ n. (1 ≤ n) × (n ≤ 609)) }
{
    if word.len() > 3 {
        return None;
    }
    let n = decimal_number(word)?;
    if 1 <= n && n <= 609 {
        Some(n as u16)
    } else {
        None
    }
}

/// The command of one word.
fn command_named(word: &[u8]) -> Option<Command>
    ensures value { result ≡ command_named word.now }
    ensures bounds { IfSome result HasLineNumber }
{
    if is_text(b":step", word) {
        Some(Command::Step)
    } else if is_text(b":back", word) {
        Some(Command::Back)
    } else if is_text(b":go", word) {
        Some(Command::Go)
    } else {
        None
    }
}

/// The command of a word and a number.
fn command_with(word: &[u8], number: &[u8]) -> Option<Command>
    ensures value { result ≡ command_with word.now number.now }
    ensures bounds { IfSome result HasLineNumber }
{
    if is_text(b":break", word) {
        let line = line_number(number)?;
        Some(Command::Break(line))
    } else if is_text(b":clear", word) {
        let line = line_number(number)?;
        Some(Command::Clear(line))
    } else {
        None
    }
}

/// The command that a line is.
fn command_of(line: &[u8]) -> Option<Command>
    ensures value { result ≡ command_of (words_of line.now) }
    ensures bounds { IfSome result HasLineNumber }
{
    match next_word(line, 0) {
        None => None,
        Some((word, after)) => match next_word(line, after) {
            None => command_named(word),
            Some((number, end)) => match next_word(line, end) {
                None => command_with(word, number),
                Some(_) => None,
            },
        },
    }
}

/// The machine that a line names with its first word, and where that word ends. Only the first line may.
fn machine_of(line: &[u8], first: bool) -> Option<(Extent, usize)>
    ensures { MatchOption result (machine_in first (words_of line.now) ≡ None)
        (λ r. NamesMachine first line.now r.0 r.1) }
{
    if !first {
        return None;
    }
    match next_word(line, 0) {
        None => None,
        Some((word, after)) => match Extent::of_word(word) {
            None => None,
            Some(extent) => Some((extent, after)),
        },
    }
}

/// What a line is, or None where it is no line of a script.
pub fn parse_line(line: &[u8], first: bool) -> Option<ParsedLine>
    ensures value { option_map (line_of_parsed line.now) result ≡ script_line first (words_of line.now) }
    ensures fits { IfSome result (FitsLine line.now) }
{
    if let Some((extent, after)) = machine_of(line, first) {
        return if are_keys(line, after) {
            Some(ParsedLine::NewMachine(extent, after))
        } else {
            None
        };
    }
    if let Some(command) = command_of(line) {
        return Some(ParsedLine::Command(command));
    }
    if are_keys(line, 0) {
        Some(ParsedLine::Keys)
    } else {
        None
    }
}
