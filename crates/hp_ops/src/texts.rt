// The listing text of each operation, as the Owner's Handbook names its keys.
ghost use Rattle.std.specs.Prelude.{◌≡◌, ◌+◌, ◌++◌, ◌<◌, ◌≤◌, length, codes};
ghost use Rattle.arrayvec.specs.ArrayString.{array_string_len};
ghost use Rattle.hp_model.specs.Texts.{text_of, digit_text, target_text, place_text, test_text};
ghost use Rattle.hp_model.specs.Operations as ops;
ghost use Rattle.hp_ops.specs.Meaning.{operation, of_stack, of_arithmetic, of_double, of_shift, way, of_bits, of_logic, of_setting, condition, of_loop, of_flags, named, of_jump, where_is, of_registers, of_windows};

use crate::groups::{
    Arithmetic, Bits, Double, Flags, Jump, Logic, Loop, Place, Registers, Rotation, Setting, Shift,
    Stack, Target, Test, Windows,
};
use crate::numbers::Register;
use crate::op::Op;
use arrayvec::ArrayString;
use hp_model::{Base, Mode};
use jd_numbers::push_digit;

impl Stack {
    fn name(self) -> &'static str
        ensures text { result.now ≡ text_of (of_stack self) }
        ensures bound { length result.now ≤ 12 }
    {
        match self {
            Stack::Enter => "ENTER",
            Stack::RollDown => "RDN",
            Stack::RollUp => "RUP",
            Stack::Exchange => "x<>y",
            Stack::ClearX => "CLX",
            Stack::LastX => "LSTX",
        }
    }
}

impl Arithmetic {
    fn name(self) -> &'static str
        ensures text { result.now ≡ text_of (of_arithmetic self) }
        ensures bound { length result.now ≤ 12 }
    {
        match self {
            Arithmetic::Add => "+",
            Arithmetic::Subtract => "-",
            Arithmetic::Multiply => "*",
            Arithmetic::Divide => "/",
            Arithmetic::ChangeSign => "CHS",
            Arithmetic::Absolute => "ABS",
            Arithmetic::Remainder => "RMD",
            Arithmetic::SquareRoot => "SQRT",
        }
    }
}

impl Double {
    fn name(self) -> &'static str
        ensures text { result.now ≡ text_of (of_double self) }
        ensures bound { length result.now ≤ 12 }
    {
        match self {
            Double::Multiply => "DBL*",
            Double::Divide => "DBL/",
            Double::Remainder => "DBLR",
        }
    }
}

impl Shift {
    fn name(self) -> &'static str
        ensures text { result.now ≡ text_of (of_shift self) }
        ensures bound { length result.now ≤ 12 }
    {
        match self {
            Shift::Left => "SL",
            Shift::Right => "SR",
            Shift::Arithmetic => "ASR",
            Shift::Justify => "LJ",
        }
    }
}

impl Rotation {
    fn name(self) -> &'static str
        ensures text { result.now ≡ text_of (ops.rotate (way self)) }
        ensures bound { length result.now ≤ 12 }
    {
        match self {
            Rotation::Left => "RL",
            Rotation::Right => "RR",
            Rotation::LeftCarry => "RLC",
            Rotation::RightCarry => "RRC",
        }
    }

    fn name_of_many(self) -> &'static str
        ensures text { result.now ≡ text_of (ops.rotate_many (way self)) }
        ensures bound { length result.now ≤ 12 }
    {
        match self {
            Rotation::Left => "RLN",
            Rotation::Right => "RRN",
            Rotation::LeftCarry => "RLCN",
            Rotation::RightCarry => "RRCN",
        }
    }
}

impl Bits {
    fn name(self) -> &'static str
        ensures text { result.now ≡ text_of (of_bits self) }
        ensures bound { length result.now ≤ 12 }
    {
        match self {
            Bits::MaskLeft => "MASKL",
            Bits::MaskRight => "MASKR",
            Bits::CountOnes => "#B",
            Bits::Set => "SB",
            Bits::Clear => "CB",
            Bits::Test => "B?",
        }
    }
}

impl Logic {
    fn name(self) -> &'static str
        ensures text { result.now ≡ text_of (of_logic self) }
        ensures bound { length result.now ≤ 12 }
    {
        match self {
            Logic::Not => "NOT",
            Logic::And => "AND",
            Logic::Or => "OR",
            Logic::Xor => "XOR",
        }
    }
}

impl Setting {
    fn name(self) -> &'static str
        ensures text { result.now ≡ text_of (of_setting self) }
        ensures bound { length result.now ≤ 12 }
    {
        match self {
            Setting::Base(Base::Hex) => "HEX",
            Setting::Base(Base::Dec) => "DEC",
            Setting::Base(Base::Oct) => "OCT",
            Setting::Base(Base::Bin) => "BIN",
            Setting::Mode(Mode::Ones) => "1'S",
            Setting::Mode(Mode::Twos) => "2'S",
            Setting::Mode(Mode::Unsigned) => "UNSGN",
            Setting::Size => "WSIZE",
        }
    }
}

impl Test {
    fn name(self) -> &'static str
        ensures text { result.now ≡ test_text (condition self) }
        ensures bound { length result.now ≤ 12 }
    {
        match self {
            Test::AtMostY => "x<=y",
            Test::Negative => "x<0",
            Test::AboveY => "x>y",
            Test::Positive => "x>0",
            Test::NotY => "x!=y",
            Test::NotZero => "x!=0",
            Test::EqualY => "x=y",
            Test::Zero => "x=0",
        }
    }
}

impl Loop {
    fn name(self) -> &'static str
        ensures text { result.now ≡ text_of (of_loop self) }
        ensures bound { length result.now ≤ 12 }
    {
        match self {
            Loop::Decrement => "DSZ",
            Loop::Increment => "ISZ",
        }
    }
}

/// A text of a name alone.
fn named(name: &str) -> ArrayString<16>
    requires { length name.now ≤ 12 }
    ensures { result.bytes ≡ name.now }
{
    let mut text = ArrayString::new();
    text.push_str(name);
    text
}

/// A text of a name and a hexadecimal digit.
fn numbered(name: &str, digit: u8) -> ArrayString<16>
    requires digit { digit < 16 }
    requires room { length name.now ≤ 12 }
    ensures { result.bytes ≡ name.now ++ digit_text digit }
{
    let mut text = named(name);
    push_digit(&mut text, digit);
    text
}

impl Flags {
    fn text(self) -> ArrayString<16>
        ensures { result.bytes ≡ text_of (of_flags self) }
    {
        match self {
            Flags::Set(flag) => numbered("SF ", flag.number),
            Flags::Clear(flag) => numbered("CF ", flag.number),
            Flags::Test(flag) => numbered("F? ", flag.number),
        }
    }
}

impl Jump {
    fn text(self) -> ArrayString<16>
        ensures { result.bytes ≡ text_of (of_jump self) }
    {
        match self {
            Jump::Label(label) => numbered("LBL ", label.value),
            Jump::Goto(Target::Label(label)) => numbered("GTO ", label.value),
            Jump::Goto(Target::Index) => named("GTO I"),
            Jump::Gosub(Target::Label(label)) => numbered("GSB ", label.value),
            Jump::Gosub(Target::Index) => named("GSB I"),
            Jump::Return => named("RTN"),
            Jump::Pause => named("PSE"),
            Jump::RunStop => named("R/S"),
        }
    }
}

impl Register {
    /// Its digit, after a point from 16 on.
    fn text(self, name: &str, pointed: &str) -> ArrayString<16>
        requires room { length name.now ≤ 12 }
        requires point { pointed.now ≡ name.now ++ codes "." }
        requires pointed { length pointed.now ≤ 12 }
        ensures { result.bytes ≡ name.now ++ place_text (ops.register self.number) }
    {
        if self.number < 16 {
            numbered(name, self.number)
        } else {
            numbered(pointed, self.number - 16)
        }
    }
}

impl Registers {
    fn text(self) -> ArrayString<16>
        ensures { result.bytes ≡ text_of (of_registers self) }
    {
        match self {
            Registers::Store(Place::Direct(register)) => register.text("STO ", "STO ."),
            Registers::Store(Place::Index) => named("STO I"),
            Registers::Store(Place::Through) => named("STO (i)"),
            Registers::Recall(Place::Direct(register)) => register.text("RCL ", "RCL ."),
            Registers::Recall(Place::Index) => named("RCL I"),
            Registers::Recall(Place::Through) => named("RCL (i)"),
            Registers::ExchangeIndex => named("x<>I"),
            Registers::ExchangeThrough => named("x<>(i)"),
            Registers::Clear => named("CLREG"),
        }
    }
}

impl Windows {
    fn text(self) -> ArrayString<16>
        ensures { result.bytes ≡ text_of (of_windows self) }
    {
        match self {
            Windows::Show(window) => numbered("WINDOW ", window.number),
            Windows::Left => named("<"),
            Windows::Right => named(">"),
        }
    }
}

impl Op {
    /// The text by which listings name the operation, in at most ten characters of ASCII.
    pub fn text(self) -> ArrayString<16>
        ensures { result.bytes ≡ text_of (operation self) }
    {
        match self {
            Op::Digit(digit) => numbered("", digit.value),
            Op::Stack(op) => named(op.name()),
            Op::Arithmetic(op) => named(op.name()),
            Op::Double(op) => named(op.name()),
            Op::Shift(op) => named(op.name()),
            Op::Rotate(op) => named(op.name()),
            Op::RotateMany(op) => named(op.name_of_many()),
            Op::Bits(op) => named(op.name()),
            Op::Logic(op) => named(op.name()),
            Op::Setting(op) => named(op.name()),
            Op::Test(op) => named(op.name()),
            Op::Loop(op) => named(op.name()),
            Op::Flags(op) => op.text(),
            Op::Jump(op) => op.text(),
            Op::Registers(op) => op.text(),
            Op::Windows(op) => op.text(),
        }
    }
}
