// The code of each operation: how a line of the program is kept in a byte.
ghost use Rattle.std.specs.Prelude.{◌≡◌, ◌+◌, ◌<◌, ◌≤◌, ◌⊎◌, ◌↔◌, IsSome, IfSome};
ghost use Rattle.hp_model.specs.Codes.{code_of, operation_of};
ghost use Rattle.hp_model.specs.Operations as ops;
ghost use Rattle.hp_ops.specs.Meaning.{operation, of_stack, of_arithmetic, of_double, of_shift, way, of_bits, of_logic, of_setting, condition, of_loop, of_flags, named, of_jump, where_is, of_registers, of_windows};

use crate::groups::{
    Arithmetic, Bits, Double, Flags, Jump, Logic, Loop, Place, Registers, Rotation, Setting, Shift,
    Stack, Target, Test, Windows,
};
use crate::numbers::{Flag, HexDigit, Register, Window};
use crate::op::Op;
use hp_model::{Base, Mode};

impl Stack {
    fn code(self) -> u8
        ensures { result ≡ code_of (of_stack self) }
    {
        match self {
            Stack::Enter => 20,
            Stack::RollDown => 22,
            Stack::RollUp => 23,
            Stack::Exchange => 24,
            Stack::ClearX => 25,
            Stack::LastX => 26,
        }
    }
}

impl Arithmetic {
    fn code(self) -> u8
        ensures { result ≡ code_of (of_arithmetic self) }
    {
        match self {
            Arithmetic::Add => 16,
            Arithmetic::Subtract => 17,
            Arithmetic::Multiply => 18,
            Arithmetic::Divide => 19,
            Arithmetic::ChangeSign => 21,
            Arithmetic::Absolute => 53,
            Arithmetic::Remainder => 54,
            Arithmetic::SquareRoot => 55,
        }
    }
}

impl Double {
    fn code(self) -> u8
        ensures { result ≡ code_of (of_double self) }
    {
        match self {
            Double::Multiply => 56,
            Double::Divide => 57,
            Double::Remainder => 58,
        }
    }
}

impl Shift {
    fn code(self) -> u8
        ensures { result ≡ code_of (of_shift self) }
    {
        match self {
            Shift::Left => 31,
            Shift::Right => 32,
            Shift::Arithmetic => 33,
            Shift::Justify => 42,
        }
    }
}

impl Rotation {
    /// The way's number among the four.
    fn number(self) -> u8
        ensures once { code_of (ops.rotate (way self)) ≡ 34 + result }
        ensures many { code_of (ops.rotate_many (way self)) ≡ 38 + result }
        ensures bound { result < 4 }
    {
        match self {
            Rotation::Left => 0,
            Rotation::Right => 1,
            Rotation::LeftCarry => 2,
            Rotation::RightCarry => 3,
        }
    }
}

impl Bits {
    fn code(self) -> u8
        ensures { result ≡ code_of (of_bits self) }
    {
        match self {
            Bits::MaskLeft => 43,
            Bits::MaskRight => 44,
            Bits::CountOnes => 45,
            Bits::Set => 46,
            Bits::Clear => 47,
            Bits::Test => 48,
        }
    }
}

impl Logic {
    fn code(self) -> u8
        ensures { result ≡ code_of (of_logic self) }
    {
        match self {
            Logic::Not => 49,
            Logic::And => 50,
            Logic::Or => 51,
            Logic::Xor => 52,
        }
    }
}

impl Setting {
    fn code(self) -> u8
        ensures { result ≡ code_of (of_setting self) }
    {
        match self {
            Setting::Base(Base::Hex) => 27,
            Setting::Base(Base::Dec) => 28,
            Setting::Base(Base::Oct) => 29,
            Setting::Base(Base::Bin) => 30,
            Setting::Mode(Mode::Ones) => 59,
            Setting::Mode(Mode::Twos) => 60,
            Setting::Mode(Mode::Unsigned) => 61,
            Setting::Size => 62,
        }
    }
}

impl Test {
    fn code(self) -> u8
        ensures { result ≡ code_of (ops.test (condition self)) }
    {
        match self {
            Test::AtMostY => 64,
            Test::Negative => 65,
            Test::AboveY => 66,
            Test::Positive => 67,
            Test::NotY => 68,
            Test::NotZero => 69,
            Test::EqualY => 70,
            Test::Zero => 71,
        }
    }
}

impl Loop {
    fn code(self) -> u8
        ensures { result ≡ code_of (of_loop self) }
    {
        match self {
            Loop::Decrement => 72,
            Loop::Increment => 73,
        }
    }
}

impl Flags {
    fn code(self) -> u8
        ensures { result ≡ code_of (of_flags self) }
    {
        match self {
            Flags::Set(flag) => 74 + flag.number,
            Flags::Clear(flag) => 80 + flag.number,
            Flags::Test(flag) => 86 + flag.number,
        }
    }
}

impl Target {
    /// The target's number among the 17, the label in the index register being the last.
    fn number(self) -> u8
        ensures goto { code_of (ops.goto (named self)) ≡ 108 + result }
        ensures gosub { code_of (ops.gosub (named self)) ≡ 125 + result }
        ensures bound { result < 17 }
    {
        match self {
            Target::Label(label) => label.value,
            Target::Index => 16,
        }
    }
}

impl HexDigit {
    /// The code of LBL with this digit.
    pub fn label_code(self) -> u8
        ensures { result ≡ code_of (ops.label self.value) }
    {
        92 + self.value
    }
}

impl Jump {
    fn code(self) -> u8
        ensures { result ≡ code_of (of_jump self) }
    {
        match self {
            Jump::Label(label) => label.label_code(),
            Jump::Goto(target) => 108 + target.number(),
            Jump::Gosub(target) => 125 + target.number(),
            Jump::Return => 142,
            Jump::Pause => 143,
            Jump::RunStop => 144,
        }
    }
}

impl Place {
    /// The place's number among the 34, of which 32 are registers.
    fn number(self) -> u8
        ensures store { code_of (ops.store (where_is self)) ≡ 145 + result }
        ensures recall { code_of (ops.recall (where_is self)) ≡ 179 + result }
        ensures bound { result < 34 }
    {
        match self {
            Place::Direct(register) => register.number,
            Place::Index => 32,
            Place::Through => 33,
        }
    }
}

impl Registers {
    fn code(self) -> u8
        ensures { result ≡ code_of (of_registers self) }
    {
        match self {
            Registers::Store(place) => 145 + place.number(),
            Registers::Recall(place) => 179 + place.number(),
            Registers::ExchangeIndex => 213,
            Registers::ExchangeThrough => 214,
            Registers::Clear => 63,
        }
    }
}

impl Windows {
    fn code(self) -> u8
        ensures { result ≡ code_of (of_windows self) }
    {
        match self {
            Windows::Show(window) => 215 + window.number,
            Windows::Left => 223,
            Windows::Right => 224,
        }
    }
}

impl Op {
    /// The operation's code, by which programs keep it.
    pub fn code(self) -> u8
        ensures code { result ≡ code_of (operation self) }
        ensures operation { operation_of result ≡ operation self }
        ensures bound { result < 225 }
    {
        match self {
            Op::Digit(digit) => digit.value,
            Op::Stack(op) => op.code(),
            Op::Arithmetic(op) => op.code(),
            Op::Double(op) => op.code(),
            Op::Shift(op) => op.code(),
            Op::Rotate(op) => 34 + op.number(),
            Op::RotateMany(op) => 38 + op.number(),
            Op::Bits(op) => op.code(),
            Op::Logic(op) => op.code(),
            Op::Setting(op) => op.code(),
            Op::Test(op) => op.code(),
            Op::Loop(op) => op.code(),
            Op::Flags(op) => op.code(),
            Op::Jump(op) => op.code(),
            Op::Registers(op) => op.code(),
            Op::Windows(op) => op.code(),
        }
    }
}
