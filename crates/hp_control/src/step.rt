// What operations do to control.
ghost use Rattle.std.specs.Prelude.{◌≡◌, ◌≤◌, length, None, Bool, List};
ghost use Rattle.hp_model.specs.ControlStep.{number_given as number_given_by, size_given as size_given_by};
ghost use Rattle.hp_model.specs.Operations as ops;
ghost use Rattle.hp_ops.specs.Meaning.{operation, of_flags, of_registers, of_windows};
ghost use Rattle.hp_control.specs.Controls.{Listing, InBounds, IsAnswered, IsFromALine, error_in, Does};

use crate::answers::{answer_at, number_given};
use crate::control::Control;
use crate::digits::new_entry;
use crate::errors::error_of;
use crate::jumps::step_jump;
use crate::moves::{fail, finish, finish_as_it_was, skip_if};
use crate::program::Program;
use hp_model::Stop;
use hp_ops::{Bits, Flags, HexDigit, Op, Registers, Setting, Stack, Windows};
use hp_words::WordSize;

/// A digit, which enters a number or makes it longer.
fn step_digit(control: &mut Control, digit: HexDigit) -> Stop
    ensures { (listing : Listing) (given : List Bool) → InBounds control.old listing
        → Does control.old control.new listing (ops.digit digit.value) given result }
{
    if let Some(number) = new_entry(control, digit) {
        control.entry = Some(number);
        control.lift = true;
        control.window = 0;
    }
    Stop::Go
}

/// Another window.
fn step_windows(control: &mut Control, op: Windows) -> Stop
    requires { control.old.window ≤ 7 }
    ensures { (listing : Listing) (given : List Bool) → InBounds control.old listing
        → Does control.old control.new listing (of_windows op) given result }
{
    control.entry = None;
    match op {
        Windows::Show(window) => control.window = window.number,
        Windows::Left => control.window = (control.window + 1).min(7),
        Windows::Right => control.window = control.window.saturating_sub(1),
    }
    Stop::Go
}

/// Registers stored, recalled, exchanged with X or cleared, where that doesn't err.
fn step_registers(control: &mut Control, op: Registers) -> Stop
    ensures { (listing : Listing) (given : List Bool) → InBounds control.old listing
        → error_in control.old listing (of_registers op) given ≡ None
        → Does control.old control.new listing (of_registers op) given result }
{
    match op {
        Registers::Clear => finish_as_it_was(control),
        _ => finish(control, true),
    }
}

/// A flag set, cleared or tested. The next line is skipped where a tested flag is clear.
fn step_flags<P: Program>(control: &mut Control, program: &P, op: Flags, given: &[bool]) -> Stop
    requires { InBounds control.old (P.listing program.now) }
    ensures { Does control.old control.new (P.listing program.now) (of_flags op) given.now result }
{
    finish_as_it_was(control);
    match op {
        Flags::Set(_) | Flags::Clear(_) => Stop::Go,
        Flags::Test(_) => skip_if(control, program, !answer_at(given, 0)),
    }
}

/// The word size that the answers to WSIZE spell, which is 64 for 0.
pub fn size_given(given: &[bool]) -> WordSize
    requires few { length given.now ≤ 8 }
    requires small { number_given_by given.now ≤ 64 }
    ensures { result.bits ≡ size_given_by given.now }
{
    let bits = number_given(given);
    if bits == 0 {
        WordSize { bits: 64 }
    } else {
        WordSize { bits: bits as u8 }
    }
}

/// Does to control what an operation does that doesn't err.
pub fn step_done<P: Program>(control: &mut Control, program: &P, op: Op, given: &[bool]) -> Stop
    requires bounds { InBounds control.old (P.listing program.now) }
    requires from { IsFromALine (operation op) control.old.line }
    requires answered { IsAnswered control.old (P.listing program.now) (operation op) given.now }
    requires no_error { error_in control.old (P.listing program.now)
        (operation op) given.now ≡ None }
    ensures { Does control.old control.new (P.listing program.now) (operation op) given.now result }
{
    match op {
        Op::Digit(digit) => step_digit(control, digit),
        Op::Windows(op) => step_windows(control, op),
        Op::Jump(op) => step_jump(control, program, op, given),
        Op::Flags(op) => step_flags(control, program, op, given),
        Op::Registers(op) => step_registers(control, op),
        Op::Test(_) => {
            finish_as_it_was(control);
            skip_if(control, program, !answer_at(given, 0))
        }
        Op::Loop(_) => {
            finish_as_it_was(control);
            skip_if(control, program, answer_at(given, 0))
        }
        Op::Bits(Bits::Test) => {
            finish(control, true);
            skip_if(control, program, !answer_at(given, 1))
        }
        Op::Setting(Setting::Base(base)) => {
            control.base = base;
            finish_as_it_was(control)
        }
        Op::Setting(Setting::Mode(mode)) => {
            control.mode = mode;
            finish_as_it_was(control)
        }
        Op::Setting(Setting::Size) => {
            control.size = size_given(given);
            finish(control, true)
        }
        Op::Stack(Stack::Enter) | Op::Stack(Stack::ClearX) => finish(control, false),
        Op::Stack(_)
        | Op::Arithmetic(_)
        | Op::Double(_)
        | Op::Shift(_)
        | Op::Rotate(_)
        | Op::RotateMany(_)
        | Op::Bits(_)
        | Op::Logic(_) => finish(control, true),
    }
}

/// Does to control what an operation does, from the answers to what it asks. The label of a jump is
/// sought once. All is inlined into the loop of runs, so that no answer goes through memory.
#[inline(always)]
pub fn step_control<P: Program>(control: &mut Control, program: &P, op: Op, given: &[bool]) -> Stop
    requires bounds { InBounds control.old (P.listing program.now) }
    requires from { IsFromALine (operation op) control.old.line }
    requires answered { IsAnswered control.old (P.listing program.now) (operation op) given.now }
    ensures { Does control.old control.new (P.listing program.now) (operation op) given.now result }
{
    if let Op::Jump(op) = op {
        return step_jump(control, program, op, given);
    }
    match error_of(control, program, op, given) {
        Some(error) => fail(control, error),
        None => step_done(control, program, op, given),
    }
}
