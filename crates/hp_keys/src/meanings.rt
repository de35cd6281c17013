// What a key means by itself, after f and after g: the keyboard's table, which prefixes begin from.
ghost use Rattle.std.specs.Prelude.{◌≡◌, ◌<◌};
ghost use Rattle.hp_model.specs.Operations as ops;
ghost use Rattle.hp_model.specs.Keys.{does, plainly as plainly_of, shifted_f as shifted_f_of, shifted_g as shifted_g_of};
ghost use Rattle.hp_keys.specs.Prefixes.{meaning_of};

use crate::commands::Command;
use crate::prefixes::{Access, FlagUse, Pending};
use hp_model::{Base, Key, Mode};
use hp_ops::{
    Arithmetic, Bits, Double, HexDigit, Jump, Logic, Loop, Op, Registers, Rotation, Setting, Shift,
    Stack, Test, Windows,
};

/// What a key means: an operation, another command, the first key of a command that needs more, or
/// nothing.
#[derive(Clone, Copy, Debug, PartialEq, Eq)]
pub enum Meaning {
    Does(Op),
    Asks(Command),
    Begins(Pending),
    Nothing,
}

/// A digit is entered.
fn digit(value: u8) -> Meaning
    requires { value < 16 }
    ensures { meaning_of result ≡ does (ops.digit value) }
{
    Meaning::Does(Op::Digit(HexDigit { value }))
}

/// What a key means by itself.
pub fn plainly(key: Key) -> Meaning
    ensures { meaning_of result ≡ plainly_of key }
{
    match key {
        Key::Digit0 => digit(0),
        Key::Digit1 => digit(1),
        Key::Digit2 => digit(2),
        Key::Digit3 => digit(3),
        Key::Digit4 => digit(4),
        Key::Digit5 => digit(5),
        Key::Digit6 => digit(6),
        Key::Digit7 => digit(7),
        Key::Digit8 => digit(8),
        Key::Digit9 => digit(9),
        Key::DigitA => digit(10),
        Key::DigitB => digit(11),
        Key::DigitC => digit(12),
        Key::DigitD => digit(13),
        Key::DigitE => digit(14),
        Key::DigitF => digit(15),
        Key::Plus => Meaning::Does(Op::Arithmetic(Arithmetic::Add)),
        Key::Minus => Meaning::Does(Op::Arithmetic(Arithmetic::Subtract)),
        Key::Times => Meaning::Does(Op::Arithmetic(Arithmetic::Multiply)),
        Key::Divide => Meaning::Does(Op::Arithmetic(Arithmetic::Divide)),
        Key::Enter => Meaning::Does(Op::Stack(Stack::Enter)),
        Key::ChangeSign => Meaning::Does(Op::Arithmetic(Arithmetic::ChangeSign)),
        Key::Point => Meaning::Asks(Command::Float),
        Key::ShiftF => Meaning::Begins(Pending::F),
        Key::ShiftG => Meaning::Begins(Pending::G),
        Key::Gosub => Meaning::Begins(Pending::Gosub),
        Key::Goto => Meaning::Begins(Pending::Goto),
        Key::ToHex => Meaning::Does(Op::Setting(Setting::Base(Base::Hex))),
        Key::ToDec => Meaning::Does(Op::Setting(Setting::Base(Base::Dec))),
        Key::ToOct => Meaning::Does(Op::Setting(Setting::Base(Base::Oct))),
        Key::ToBin => Meaning::Does(Op::Setting(Setting::Base(Base::Bin))),
        Key::RunStop => Meaning::Does(Op::Jump(Jump::RunStop)),
        Key::SingleStep => Meaning::Asks(Command::Sst),
        Key::RollDown => Meaning::Does(Op::Stack(Stack::RollDown)),
        Key::Exchange => Meaning::Does(Op::Stack(Stack::Exchange)),
        Key::Backspace => Meaning::Asks(Command::Bsp),
        Key::On => Meaning::Asks(Command::On),
        Key::Store => Meaning::Begins(Pending::Register(Access::Store)),
        Key::Recall => Meaning::Begins(Pending::Register(Access::Recall)),
    }
}

/// What a key means after f.
pub fn shifted_f(key: Key) -> Meaning
    ensures { meaning_of result ≡ shifted_f_of key }
{
    match key {
        Key::Digit0 => Meaning::Asks(Command::Mem),
        Key::Digit1 => Meaning::Does(Op::Setting(Setting::Mode(Mode::Ones))),
        Key::Digit2 => Meaning::Does(Op::Setting(Setting::Mode(Mode::Twos))),
        Key::Digit3 => Meaning::Does(Op::Setting(Setting::Mode(Mode::Unsigned))),
        Key::Digit4 => Meaning::Does(Op::Bits(Bits::Set)),
        Key::Digit5 => Meaning::Does(Op::Bits(Bits::Clear)),
        Key::Digit6 => Meaning::Does(Op::Bits(Bits::Test)),
        Key::Digit7 => Meaning::Does(Op::Bits(Bits::MaskLeft)),
        Key::Digit8 => Meaning::Does(Op::Bits(Bits::MaskRight)),
        Key::Digit9 => Meaning::Does(Op::Arithmetic(Arithmetic::Remainder)),
        Key::DigitA => Meaning::Does(Op::Shift(Shift::Left)),
        Key::DigitB => Meaning::Does(Op::Shift(Shift::Right)),
        Key::DigitC => Meaning::Does(Op::Rotate(Rotation::Left)),
        Key::DigitD => Meaning::Does(Op::Rotate(Rotation::Right)),
        Key::DigitE => Meaning::Does(Op::RotateMany(Rotation::Left)),
        Key::DigitF => Meaning::Does(Op::RotateMany(Rotation::Right)),
        Key::Plus => Meaning::Does(Op::Logic(Logic::Or)),
        Key::Minus => Meaning::Does(Op::Logic(Logic::Not)),
        Key::Times => Meaning::Does(Op::Logic(Logic::And)),
        Key::Divide => Meaning::Does(Op::Logic(Logic::Xor)),
        Key::Enter => Meaning::Begins(Pending::Window),
        Key::ChangeSign => Meaning::Asks(Command::Float),
        Key::Point => Meaning::Asks(Command::Status),
        Key::ShiftF => Meaning::Begins(Pending::F),
        Key::ShiftG => Meaning::Begins(Pending::G),
        Key::Gosub => Meaning::Does(Op::Registers(Registers::ExchangeThrough)),
        Key::Goto => Meaning::Does(Op::Registers(Registers::ExchangeIndex)),
        Key::ToHex => Meaning::Asks(Command::Show(Base::Hex)),
        Key::ToDec => Meaning::Asks(Command::Show(Base::Dec)),
        Key::ToOct => Meaning::Asks(Command::Show(Base::Oct)),
        Key::ToBin => Meaning::Asks(Command::Show(Base::Bin)),
        Key::RunStop => Meaning::Nothing,
        Key::SingleStep => Meaning::Nothing,
        Key::RollDown => Meaning::Asks(Command::ClearProgram),
        Key::Exchange => Meaning::Does(Op::Registers(Registers::Clear)),
        Key::Backspace => Meaning::Asks(Command::ClearPrefix),
        Key::On => Meaning::Asks(Command::On),
        Key::Store => Meaning::Does(Op::Setting(Setting::Size)),
        Key::Recall => Meaning::Asks(Command::Float),
    }
}

/// What a key means after g.
pub fn shifted_g(key: Key) -> Meaning
    ensures { meaning_of result ≡ shifted_g_of key }
{
    match key {
        Key::Digit0 => Meaning::Does(Op::Test(Test::NotY)),
        Key::Digit1 => Meaning::Does(Op::Test(Test::AtMostY)),
        Key::Digit2 => Meaning::Does(Op::Test(Test::Negative)),
        Key::Digit3 => Meaning::Does(Op::Test(Test::AboveY)),
        Key::Digit4 => Meaning::Begins(Pending::Flag(FlagUse::Set)),
        Key::Digit5 => Meaning::Begins(Pending::Flag(FlagUse::Clear)),
        Key::Digit6 => Meaning::Begins(Pending::Flag(FlagUse::Test)),
        Key::Digit7 => Meaning::Does(Op::Bits(Bits::CountOnes)),
        Key::Digit8 => Meaning::Does(Op::Arithmetic(Arithmetic::Absolute)),
        Key::Digit9 => Meaning::Does(Op::Double(Double::Remainder)),
        Key::DigitA => Meaning::Does(Op::Shift(Shift::Justify)),
        Key::DigitB => Meaning::Does(Op::Shift(Shift::Arithmetic)),
        Key::DigitC => Meaning::Does(Op::Rotate(Rotation::LeftCarry)),
        Key::DigitD => Meaning::Does(Op::Rotate(Rotation::RightCarry)),
        Key::DigitE => Meaning::Does(Op::RotateMany(Rotation::LeftCarry)),
        Key::DigitF => Meaning::Does(Op::RotateMany(Rotation::RightCarry)),
        Key::Plus => Meaning::Does(Op::Test(Test::Zero)),
        Key::Minus => Meaning::Does(Op::Test(Test::Positive)),
        Key::Times => Meaning::Does(Op::Double(Double::Multiply)),
        Key::Divide => Meaning::Does(Op::Double(Double::Divide)),
        Key::Enter => Meaning::Does(Op::Stack(Stack::LastX)),
        Key::ChangeSign => Meaning::Does(Op::Test(Test::EqualY)),
        Key::Point => Meaning::Does(Op::Test(Test::NotZero)),
        Key::ShiftF => Meaning::Begins(Pending::F),
        Key::ShiftG => Meaning::Begins(Pending::G),
        Key::Gosub => Meaning::Does(Op::Jump(Jump::Return)),
        Key::Goto => Meaning::Begins(Pending::Label),
        Key::ToHex => Meaning::Does(Op::Loop(Loop::Decrement)),
        Key::ToDec => Meaning::Does(Op::Loop(Loop::Increment)),
        Key::ToOct => Meaning::Does(Op::Arithmetic(Arithmetic::SquareRoot)),
        Key::ToBin => Meaning::Asks(Command::Float),
        Key::RunStop => Meaning::Asks(Command::ProgramRun),
        Key::SingleStep => Meaning::Asks(Command::Bst),
        Key::RollDown => Meaning::Does(Op::Stack(Stack::RollUp)),
        Key::Exchange => Meaning::Does(Op::Jump(Jump::Pause)),
        Key::Backspace => Meaning::Does(Op::Stack(Stack::ClearX)),
        Key::On => Meaning::Asks(Command::On),
        Key::Store => Meaning::Does(Op::Windows(Windows::Left)),
        Key::Recall => Meaning::Does(Op::Windows(Windows::Right)),
    }
}
