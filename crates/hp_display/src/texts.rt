// The texts of each view.
ghost use Rattle.std.specs.Prelude.{◌≡◌, ℕ, ◌+◌, ◌-◌, ◌<◌, ◌≤◌, ◌/◌, ◌%◌, ◌++◌, [], ◌∷◌, length, codes, decimal};
ghost use Rattle.hp_model.specs.State.{flag};
ghost use Rattle.hp_model.specs.Display.{number_text, text_if, three_digits, line_text, mode_text, status_text, memory_text};
ghost use Rattle.hp_core.specs.Machines.{control_of, data_of, machine_of};
ghost use Rattle.hp_display.specs.Shifts.{shift_mark};
ghost use Rattle.arrayvec.specs.ArrayString.{array_string_len};

use crate::numbers::{push_if, push_number};
use arrayvec::ArrayString;
use hp_core::Machine;
use hp_keys::Shift;
use hp_model::{Base, Mode};
use itoa::Buffer;
use jd_numbers::{flag_digit, push_digit};

/// The mark of a pending shift is added.
fn push_shift(text: &mut ArrayString<32>, shift: Shift)
    requires room { array_string_len text.old ≤ 30 }
    ensures text { text.new.bytes ≡ text.old.bytes ++ shift_mark shift }
    ensures len { array_string_len text.new ≤ array_string_len text.old + 2 }
{
    match shift {
        Shift::Plain => {}
        Shift::F => text.push_str(" f"),
        Shift::G => text.push_str(" g"),
    }
}

/// X in a base and a window, with the marks of the flags and of a pending shift.
pub fn run_text(machine: &Machine, shift: Shift, base: Base, window: u8) -> ArrayString<32>
    requires { window ≤ 7 }
    ensures text { let held = data_of machine.now in
        result.bytes ≡ number_text base window (control_of machine.now) held
        ++ text_if (flag held 4) (codes " C") ++ text_if (flag held 5) (codes " G")
        ++ shift_mark shift }
    ensures room { array_string_len result < 32 }
{
    let mut text = ArrayString::new();
    push_number(&mut text, machine, base, window);
    push_if(&mut text, machine.content.flags[4], " C");
    push_if(&mut text, machine.content.flags[5], " G");
    push_shift(&mut text, shift);
    text
}

/// The three digits of a line's number are added.
fn push_line_number(text: &mut ArrayString<32>, line: u16)
    requires room { array_string_len text.old ≤ 8 }
    ensures text { text.new.bytes ≡ text.old.bytes ++ three_digits line }
    ensures len { array_string_len text.new ≡ array_string_len text.old + 3 }
{
    push_digit(text, (line / 100 % 10) as u8);
    push_digit(text, (line / 10 % 10) as u8);
    push_digit(text, (line % 10) as u8);
}

/// The text of the shown line's operation is added, unless it is line 0.
fn push_operation(text: &mut ArrayString<32>, machine: &Machine)
    requires line { machine.now.control.line ≤ length machine.now.memory.program }
    requires room { array_string_len text.old ≤ 8 }
    ensures text { text.new.bytes ≡ text.old.bytes ++ line_text (control_of machine.now) }
    ensures len { array_string_len text.new ≤ array_string_len text.old + 17 }
{
    let line = machine.control.line;
    if line > 0 {
        let op = machine.op_at(line);
        text.push(' ');
        text.push_str(op.text().as_str());
    }
}

/// The shown line of the program, with the mark of a pending shift.
pub fn program_text(machine: &Machine, shift: Shift) -> ArrayString<32>
    requires { machine.now.control.line ≤ length machine.now.memory.program }
    ensures text { result.bytes ≡ three_digits machine.now.control.line
        ++ line_text (control_of machine.now) ++ shift_mark shift ++ codes " PRGM" }
    ensures room { array_string_len result < 32 }
{
    let mut text = ArrayString::new();
    push_line_number(&mut text, machine.control.line);
    push_operation(&mut text, machine);
    push_shift(&mut text, shift);
    text.push_str(" PRGM");
    text
}

/// The mode as a digit: 0 unsigned, 1 for one's and 2 for two's complement.
fn mode_digit(mode: Mode) -> char
    ensures value { result ∷ [] ≡ mode_text mode }
    ensures ascii { result < 128 }
{
    match mode {
        Mode::Unsigned => '0',
        Mode::Ones => '1',
        Mode::Twos => '2',
    }
}

/// The mode, the word size and the flags 3 to 0, as STATUS shows them.
pub fn status(machine: &Machine) -> ArrayString<32>
    ensures text { result.bytes ≡ status_text (machine_of machine.now) }
    ensures room { array_string_len result < 32 }
{
    let bits = machine.control.size.bits();
    let flags = machine.content.flags;
    let mut text = ArrayString::new();
    text.push(mode_digit(machine.control.mode));
    text.push('-');
    push_digit(&mut text, bits / 10);
    push_digit(&mut text, bits % 10);
    text.push('-');
    text.push(flag_digit(flags[3]));
    text.push(flag_digit(flags[2]));
    text.push(flag_digit(flags[1]));
    text.push(flag_digit(flags[0]));
    text
}

/// A number of at most five decimal digits is added.
fn push_decimal(text: &mut ArrayString<32>, n: u16)
    requires room { array_string_len text.old ≤ 24 }
    ensures text { text.new.bytes ≡ text.old.bytes ++ decimal n }
    ensures len { array_string_len text.new ≤ array_string_len text.old + 5 }
{
    text.push_str(Buffer::new().format(n));
}

/// How memory is divided, as MEM shows it: the bytes that the program's blocks have left after
/// `P-`, and the number of registers after `r-`.
pub fn mem_line(machine: &Machine) -> ArrayString<32>
    ensures text { result.bytes ≡ memory_text (control_of machine.now) }
    ensures room { array_string_len result < 32 }
{
    let program_bytes = 7 * machine.memory.blocks() as u16;
    let mut text = ArrayString::new();
    text.push_str("P-");
    push_decimal(
        &mut text,
        program_bytes.saturating_sub(machine.memory.lines()),
    );
    text.push_str(" r-");
    push_decimal(&mut text, machine.memory.count(machine.control.size));
    text
}

/// The number of an error.
pub fn error_text(number: u8) -> ArrayString<32>
    ensures text { result.bytes ≡ codes "Error " ++ decimal number }
    ensures room { array_string_len result < 32 }
{
    let mut text = ArrayString::new();
    text.push_str("Error ");
    push_decimal(&mut text, number as u16);
    text
}
