//! The order in which an operation asks, and where it asks no more, as after a yes that means an
//! error. The operation, the size of memory and the answers so far decide this, without the data.
ghost use Rattle.std.specs.Prelude.{◌≡◌, ◌∷◌, [], true};
ghost use Rattle.hp_model.specs.State.{Control as ControlState, index_bits as index_bits_of};
ghost use Rattle.hp_model.specs.Questions.{asks, index_questions, label_questions, means_error, next_question, place_questions};
ghost use Rattle.hp_ops.specs.Meaning.{named, of_arithmetic, of_bits, of_double, of_flags, of_jump, of_registers, of_setting, operation, where_is};
ghost use Rattle.jd_questions.specs.Questions.{asked, asked_if};

use crate::numbers::{Next, next_of_number};
use crate::question::Question;
use hp_ops::{Arithmetic, Bits, Double, Flags, Jump, Op, Place, Registers, Setting, Target};

/// A question that is asked alone.
#[tactic(auto, using(crate::proofs::Spelling::first_asked, crate::proofs::Spelling::alone_done))]
fn alone(question: Question, given: &[bool]) -> Option<Question>
    ensures { asked_if result ≡ next_question (asked question ∷ []) given.now }
{
    match given {
        [] => Some(question),
        [_, ..] => None,
    }
}

/// A question that means an error where it is answered with yes, and else another one.
fn in_order(first: Question, second: Question, given: &[bool]) -> Option<Question>
    requires { means_error (asked first) ≡ true }
    ensures { asked_if result ≡ next_question (asked first ∷ asked second ∷ []) given.now }
{
    match given {
        [] => Some(first),
        [erring, rest @ ..] => {
            if *erring {
                return None;
            }
            alone(second, rest)
        }
    }
}

fn asked_of_arithmetic(op: Arithmetic, given: &[bool]) -> Option<Question>
    ensures { (k : ControlState) → asked_if result ≡ asks k (of_arithmetic op) given.now }
{
    match op {
        Arithmetic::Divide | Arithmetic::Remainder => alone(Question::XIsZero, given),
        Arithmetic::SquareRoot => alone(Question::XIsNegative, given),
        Arithmetic::Add
        | Arithmetic::Subtract
        | Arithmetic::Multiply
        | Arithmetic::ChangeSign
        | Arithmetic::Absolute => None,
    }
}

fn asked_of_double(op: Double, given: &[bool]) -> Option<Question>
    ensures { (k : ControlState) → asked_if result ≡ asks k (of_double op) given.now }
{
    match op {
        Double::Multiply => None,
        Double::Divide | Double::Remainder => {
            in_order(Question::XIsZero, Question::QuotientIsTooGreat, given)
        }
    }
}

fn asked_of_bits(op: Bits, given: &[bool]) -> Option<Question>
    ensures { (k : ControlState) → asked_if result ≡ asks k (of_bits op) given.now }
{
    match op {
        Bits::MaskLeft | Bits::MaskRight => alone(Question::MagnitudeAboveSize, given),
        Bits::CountOnes => None,
        Bits::Set | Bits::Clear => alone(Question::MagnitudeAtLeastSize, given),
        Bits::Test => in_order(Question::MagnitudeAtLeastSize, Question::BitOfY, given),
    }
}

fn asked_of_setting(op: Setting, given: &[bool]) -> Option<Question>
    ensures { (k : ControlState) → asked_if result ≡ asks k (of_setting op) given.now }
{
    match op {
        Setting::Base(_) | Setting::Mode(_) => None,
        Setting::Size => match next_of_number(7, given) {
            Next::First => Some(Question::MagnitudeAbove64),
            Next::Bit(place) => Some(Question::MagnitudeBit(place)),
            Next::Done => None,
        },
    }
}

fn asked_of_flags(op: Flags, given: &[bool]) -> Option<Question>
    ensures { (k : ControlState) → asked_if result ≡ asks k (of_flags op) given.now }
{
    match op {
        Flags::Set(_) | Flags::Clear(_) => None,
        Flags::Test(flag) => alone(Question::Flag(flag), given),
    }
}

fn asked_of_target(target: Target, given: &[bool]) -> Option<Question>
    ensures { asked_if result ≡ next_question (label_questions (named target)) given.now }
{
    match target {
        Target::Label(_) => None,
        Target::Index => match next_of_number(4, given) {
            Next::First => Some(Question::IndexAbove15),
            Next::Bit(place) => Some(Question::IndexBit(place)),
            Next::Done => None,
        },
    }
}

fn asked_of_jump(op: Jump, given: &[bool]) -> Option<Question>
    ensures { (k : ControlState) → asked_if result ≡ asks k (of_jump op) given.now }
{
    match op {
        Jump::Goto(target) | Jump::Gosub(target) => asked_of_target(target, given),
        Jump::Label(_) | Jump::Return | Jump::Pause | Jump::RunStop => None,
    }
}

/// The index bits of a memory of so many bytes.
fn index_bits(bytes: u16) -> u8
    ensures { result ≡ index_bits_of bytes }
{
    if bytes <= 203 { 9 } else { 11 }
}

fn asked_of_index(bytes: u16, given: &[bool]) -> Option<Question>
    ensures { (k : ControlState) → k.bytes ≡ bytes
        → asked_if result ≡ next_question (index_questions k) given.now }
{
    match next_of_number(index_bits(bytes), given) {
        Next::First => Some(Question::IndexPastRegisters),
        Next::Bit(place) => Some(Question::IndexBit(place)),
        Next::Done => None,
    }
}

fn asked_of_place(bytes: u16, place: Place, given: &[bool]) -> Option<Question>
    ensures { (k : ControlState) → k.bytes ≡ bytes
        → asked_if result ≡ next_question (place_questions k (where_is place)) given.now }
{
    match place {
        Place::Direct(_) | Place::Index => None,
        Place::Through => asked_of_index(bytes, given),
    }
}

fn asked_of_registers(bytes: u16, op: Registers, given: &[bool]) -> Option<Question>
    ensures { (k : ControlState) → k.bytes ≡ bytes
        → asked_if result ≡ asks k (of_registers op) given.now }
{
    match op {
        Registers::Store(place) | Registers::Recall(place) => asked_of_place(bytes, place, given),
        Registers::ExchangeThrough => asked_of_index(bytes, given),
        Registers::ExchangeIndex | Registers::Clear => None,
    }
}

/// The next question of an operation after some answers, in a memory of so many bytes.
pub fn next_question(bytes: u16, op: Op, given: &[bool]) -> Option<Question>
    ensures { (k : ControlState) → k.bytes ≡ bytes
        → asked_if result ≡ asks k (operation op) given.now }
{
    match op {
        Op::Arithmetic(op) => asked_of_arithmetic(op, given),
        Op::Double(op) => asked_of_double(op, given),
        Op::RotateMany(_) => alone(Question::MagnitudeAboveSize, given),
        Op::Bits(op) => asked_of_bits(op, given),
        Op::Setting(op) => asked_of_setting(op, given),
        Op::Test(test) => alone(Question::Test(test), given),
        Op::Loop(op) => alone(Question::CountIsZero(op), given),
        Op::Flags(op) => asked_of_flags(op, given),
        Op::Jump(op) => asked_of_jump(op, given),
        Op::Registers(op) => asked_of_registers(bytes, op, given),
        Op::Digit(_)
        | Op::Stack(_)
        | Op::Shift(_)
        | Op::Rotate(_)
        | Op::Logic(_)
        | Op::Windows(_) => None,
    }
}
