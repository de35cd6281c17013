//! A line of a script is done, and gives the line to be written for it, without the line feed. What it
//! asks for is the debugger's; only the words of the answer are chosen here.
ghost use Rattle.std.specs.Prelude.{◌≡◌, ◌+◌, ◌<◌, ◌≤◌, ◌++◌, length};
ghost use Rattle.jd_text.specs.Places.{words_at};
ghost use Rattle.hp_model.specs.Display.{display as display_of, three_digits};
ghost use Rattle.arrayvec.specs.ArrayString.{array_string_len};
ghost use Rattle.hp_debug.specs.ScriptLines.{keys_in};
ghost use Rattle.hp_debug.specs.Scripts.{numbered_display, stop_text as stop_text_of, pressed_all, output, command_output, line_output};
ghost use Rattle.hp_debug.specs.ParsedLines.{line_of_parsed, HasLineNumber, FitsLine};

use crate::commands::Command;
use crate::debuggers::Debugger;
use crate::parsing::ParsedLine;
use crate::stops::Stopped;
use arrayvec::ArrayString;
use hp_display::display;
use hp_keys::Key;
use jd_numbers::push_digit;
use jd_text::next_word;

/// Adds the display of the present state.
fn push_display(text: &mut ArrayString<48>, debugger: &Debugger)
    requires room { array_string_len text.old ≤ 10 }
    ensures text { text.new.bytes ≡ text.old.bytes ++ display_of debugger.now.present }
    ensures room { array_string_len text.new < 48 }
{
    let calculator = debugger.calculator();
    let shown = display(
        &calculator.machine,
        calculator.prefix.shift(),
        calculator.program,
        calculator.view,
    );
    text.push_str(shown.as_str());
}

/// Adds the number of a line, in three digits.
fn push_line_number(text: &mut ArrayString<48>, line: u16)
    requires room { array_string_len text.old ≤ 6 }
    ensures text { text.new.bytes ≡ text.old.bytes ++ three_digits line }
    ensures len { array_string_len text.new ≡ array_string_len text.old + 3 }
{
    push_digit(text, (line / 100 % 10) as u8);
    push_digit(text, (line / 10 % 10) as u8);
    push_digit(text, (line % 10) as u8);
}

/// Adds the number of the line and the display.
fn push_numbered_display(text: &mut ArrayString<48>, debugger: &Debugger)
    requires room { array_string_len text.old ≤ 6 }
    ensures text { text.new.bytes ≡ text.old.bytes ++ numbered_display debugger.now }
    ensures room { array_string_len text.new < 48 }
{
    push_line_number(text, debugger.calculator().machine.control.line);
    text.push(' ');
    push_display(text, debugger);
}

/// The display of the present state.
fn display_text(debugger: &Debugger) -> ArrayString<48>
    ensures text { result.bytes ≡ display_of debugger.now.present }
    ensures room { array_string_len result < 48 }
{
    let mut text = ArrayString::new();
    push_display(&mut text, debugger);
    text
}

/// Words of at most six bytes, the number of the line and the display.
fn numbered_text(words: &str, debugger: &Debugger) -> ArrayString<48>
    requires { length words.now ≤ 6 }
    ensures text { result.bytes ≡ words.now ++ numbered_display debugger.now }
    ensures room { array_string_len result < 48 }
{
    let mut text = ArrayString::new();
    text.push_str(words);
    push_numbered_display(&mut text, debugger);
    text
}

/// Words of at most ten bytes alone.
fn words_alone(words: &str) -> ArrayString<48>
    requires { length words.now ≤ 10 }
    ensures text { result.bytes ≡ words.now }
    ensures room { array_string_len result < 48 }
{
    let mut text = ArrayString::new();
    text.push_str(words);
    text
}

/// How a run stopped.
fn stop_text(stopped: Stopped, debugger: &Debugger) -> ArrayString<48>
    ensures text { result.bytes ≡ stop_text_of stopped debugger.now }
    ensures room { array_string_len result < 48 }
{
    match stopped {
        Stopped::NotRun => words_alone("not run"),
        Stopped::Break(_) => numbered_text("break ", debugger),
        Stopped::Ended(_) => numbered_text("end ", debugger),
        Stopped::Late => numbered_text("late ", debugger),
    }
}

/// Does a command.
fn do_command(debugger: &mut Debugger, command: Command) -> ArrayString<48>
    requires { HasLineNumber command }
    ensures output { output debugger.new result.bytes ≡ command_output command debugger.old }
    ensures room { array_string_len result < 48 }
{
    match command {
        Command::Break(line) => {
            debugger.set_break(line);
            display_text(debugger)
        }
        Command::Clear(line) => {
            debugger.clear_break(line);
            display_text(debugger)
        }
        Command::Step => {
            if debugger.step() {
                numbered_text("", debugger)
            } else {
                words_alone("not run")
            }
        }
        Command::Back => {
            if debugger.back() {
                numbered_text("", debugger)
            } else {
                words_alone("no history")
            }
        }
        Command::Go => {
            let stopped = debugger.go();
            stop_text(stopped, debugger)
        }
    }
}

/// Presses the keys of a line's words from a place on.
fn press_keys(debugger: &mut Debugger, line: &[u8], from: usize)
    requires { from ≤ length line.now }
    ensures { debugger.new ≡ pressed_all (keys_in (words_at line.now from)) debugger.old }
{
    let mut at = from;
    'words: while let Some((word, end)) = next_word(line, at) {
        match Key::of_word(word) {
            Some(key) => debugger.press(key),
            None => {}
        }
        at = end;
    }
}

/// Does what a line was parsed to.
pub fn do_line(debugger: &mut Debugger, line: &[u8], parsed: ParsedLine) -> ArrayString<48>
    requires { FitsLine line.now parsed }
    ensures output { output debugger.new result.bytes ≡ line_output (line_of_parsed line.now parsed) debugger.old }
    ensures room { array_string_len result < 48 }
{
    match parsed {
        ParsedLine::Keys => {
            press_keys(debugger, line, 0);
            display_text(debugger)
        }
        ParsedLine::NewMachine(extent, after) => {
            debugger.restart(extent);
            press_keys(debugger, line, after);
            display_text(debugger)
        }
        ParsedLine::Command(command) => do_command(debugger, command),
    }
}
