// Errors of operations, from the answers to what they ask.
ghost use Rattle.std.specs.Prelude.{◌≡◌, ℕ, ◌+◌, ◌≤◌, true, Bool, length};
ghost use Rattle.hp_model.specs.State.{register_count as register_count_of};
ghost use Rattle.hp_model.specs.Questions.{place_questions, are_complete};
ghost use Rattle.hp_model.specs.ControlStep.{error_if as error_if_of, place_error as place_error_of};
ghost use Rattle.hp_ops.specs.Meaning.{operation, of_arithmetic, of_bits, of_double, of_jump, of_registers, where_is};
ghost use Rattle.hp_control.specs.Controls.{Listing, control_of, IsAnswered, error_in};

use crate::answers::{answer_at, number_given};
use crate::control::Control;
use crate::program::Program;
use crate::targets::{gosub_line, goto_line};
use hp_ops::{Arithmetic, Bits, Double, Jump, Op, Place, Registers, Setting};
use hp_words::WordSize;

/// An error where that is said.
fn error_if(error: u8, errs: bool) -> Option<u8>
    ensures { result ≡ error_if_of error errs }
{
    if errs { Some(error) } else { None }
}

/// How many registers of a word size a program leaves.
pub fn register_count<P: Program>(program: &P, size: WordSize) -> u16
    ensures { let listing = P.listing program.now in
        result ≡ register_count_of listing.bytes size.bits listing.blocks }
{
    (2 * program.bytes() - 14 * program.blocks() as u16) / size.nibbles() as u16
}

/// Error 3 for a register from the count on.
fn place_error<P: Program>(
    control: &Control,
    program: &P,
    place: Place,
    given: &[bool],
) -> Option<u8>
    requires { are_complete (place_questions
        (control_of control.now (P.listing program.now)) (where_is place)) given.now ≡ true }
    ensures { result ≡ place_error_of (control_of control.now (P.listing program.now))
        (where_is place) given.now }
{
    let count = register_count(program, control.size) as u64;
    match place {
        Place::Direct(register) => error_if(3, register.number as u64 >= count),
        Place::Index => None,
        Place::Through => error_if(3, answer_at(given, 0) || number_given(given) >= count),
    }
}

fn register_error<P: Program>(
    control: &Control,
    program: &P,
    op: Registers,
    given: &[bool],
) -> Option<u8>
    requires { IsAnswered control.now (P.listing program.now) (of_registers op) given.now }
    ensures { result ≡ error_in control.now (P.listing program.now) (of_registers op) given.now }
{
    match op {
        Registers::Store(place) | Registers::Recall(place) => {
            place_error(control, program, place, given)
        }
        Registers::ExchangeThrough => place_error(control, program, Place::Through, given),
        _ => None,
    }
}

/// Error 4 for a label that is missing, and Error 5 for a fifth pending return.
fn jump_error<P: Program>(control: &Control, program: &P, op: Jump, given: &[bool]) -> Option<u8>
    requires line { control.now.line ≤ length (P.listing program.now).codes + 1 }
    requires answered { IsAnswered control.now (P.listing program.now) (of_jump op) given.now }
    ensures { result ≡ error_in control.now (P.listing program.now) (of_jump op) given.now }
{
    match op {
        Jump::Goto(target) => goto_line(control, program, target, given).err(),
        Jump::Gosub(target) => gosub_line(control, program, target, given).err(),
        _ => None,
    }
}

fn arithmetic_error(op: Arithmetic, given: &[bool]) -> Option<u8>
    ensures { (control : Control) (listing : Listing)
        → result ≡ error_in control listing (of_arithmetic op) given.now }
{
    match op {
        Arithmetic::Divide | Arithmetic::Remainder | Arithmetic::SquareRoot => {
            error_if(0, answer_at(given, 0))
        }
        _ => None,
    }
}

fn double_error(op: Double, given: &[bool]) -> Option<u8>
    ensures { (control : Control) (listing : Listing)
        → result ≡ error_in control listing (of_double op) given.now }
{
    match op {
        Double::Multiply => None,
        _ => error_if(0, answer_at(given, 0) || answer_at(given, 1)),
    }
}

fn bits_error(op: Bits, given: &[bool]) -> Option<u8>
    ensures { (control : Control) (listing : Listing)
        → result ≡ error_in control listing (of_bits op) given.now }
{
    match op {
        Bits::CountOnes => None,
        _ => error_if(2, answer_at(given, 0)),
    }
}

/// The error of an operation, if it errs.
pub fn error_of<P: Program>(control: &Control, program: &P, op: Op, given: &[bool]) -> Option<u8>
    requires line { control.now.line ≤ length (P.listing program.now).codes + 1 }
    requires answered { IsAnswered control.now (P.listing program.now) (operation op) given.now }
    ensures { result ≡ error_in control.now (P.listing program.now) (operation op) given.now }
{
    match op {
        Op::Arithmetic(op) => arithmetic_error(op, given),
        Op::Double(op) => double_error(op, given),
        Op::RotateMany(_) => error_if(2, answer_at(given, 0)),
        Op::Bits(op) => bits_error(op, given),
        Op::Setting(Setting::Size) => error_if(2, answer_at(given, 0) || number_given(given) > 64),
        Op::Registers(op) => register_error(control, program, op, given),
        Op::Jump(op) => jump_error(control, program, op, given),
        _ => None,
    }
}
