// The operation of each code, the inverse of `code`.
ghost use Rattle.std.specs.Prelude.{◌≡◌, ◌+◌, ◌<◌, ◌≤◌, ◌⊎◌, ◌↔◌, Some, IsSome, IfSome};
ghost use Rattle.hp_model.specs.Codes.{code_of, operation_of};
ghost use Rattle.hp_model.specs.Operations as ops;
ghost use Rattle.hp_ops.specs.declared.op.Op.{Op};
ghost use Rattle.hp_ops.specs.Meaning.{operation, of_stack, of_arithmetic, of_double, of_shift, way, of_bits, of_logic, of_setting, condition, of_loop, of_flags, named, of_jump, where_is, of_registers, of_windows};

use crate::groups::{
    Arithmetic, Bits, Double, Flags, Jump, Logic, Loop, Place, Registers, Rotation, Setting, Shift,
    Stack, Target, Test, Windows,
};
use crate::numbers::{Flag, HexDigit, Register, Window};
use crate::op::Op;
use hp_model::{Base, Mode};

/// The operation that carries no number, of a code from 16 to 73.
fn function_at(code: u8) -> Op
    requires least { 16 ≤ code }
    requires greatest { code ≤ 73 }
    ensures { code_of (operation result) ≡ code }
{
    match code {
        16 => Op::Arithmetic(Arithmetic::Add),
        17 => Op::Arithmetic(Arithmetic::Subtract),
        18 => Op::Arithmetic(Arithmetic::Multiply),
        19 => Op::Arithmetic(Arithmetic::Divide),
        20 => Op::Stack(Stack::Enter),
        21 => Op::Arithmetic(Arithmetic::ChangeSign),
        22 => Op::Stack(Stack::RollDown),
        23 => Op::Stack(Stack::RollUp),
        24 => Op::Stack(Stack::Exchange),
        25 => Op::Stack(Stack::ClearX),
        26 => Op::Stack(Stack::LastX),
        27 => Op::Setting(Setting::Base(Base::Hex)),
        28 => Op::Setting(Setting::Base(Base::Dec)),
        29 => Op::Setting(Setting::Base(Base::Oct)),
        30 => Op::Setting(Setting::Base(Base::Bin)),
        31 => Op::Shift(Shift::Left),
        32 => Op::Shift(Shift::Right),
        33 => Op::Shift(Shift::Arithmetic),
        34 => Op::Rotate(Rotation::Left),
        35 => Op::Rotate(Rotation::Right),
        36 => Op::Rotate(Rotation::LeftCarry),
        37 => Op::Rotate(Rotation::RightCarry),
        38 => Op::RotateMany(Rotation::Left),
        39 => Op::RotateMany(Rotation::Right),
        40 => Op::RotateMany(Rotation::LeftCarry),
        41 => Op::RotateMany(Rotation::RightCarry),
        42 => Op::Shift(Shift::Justify),
        43 => Op::Bits(Bits::MaskLeft),
        44 => Op::Bits(Bits::MaskRight),
        45 => Op::Bits(Bits::CountOnes),
        46 => Op::Bits(Bits::Set),
        47 => Op::Bits(Bits::Clear),
        48 => Op::Bits(Bits::Test),
        49 => Op::Logic(Logic::Not),
        50 => Op::Logic(Logic::And),
        51 => Op::Logic(Logic::Or),
        52 => Op::Logic(Logic::Xor),
        53 => Op::Arithmetic(Arithmetic::Absolute),
        54 => Op::Arithmetic(Arithmetic::Remainder),
        55 => Op::Arithmetic(Arithmetic::SquareRoot),
        56 => Op::Double(Double::Multiply),
        57 => Op::Double(Double::Divide),
        58 => Op::Double(Double::Remainder),
        59 => Op::Setting(Setting::Mode(Mode::Ones)),
        60 => Op::Setting(Setting::Mode(Mode::Twos)),
        61 => Op::Setting(Setting::Mode(Mode::Unsigned)),
        62 => Op::Setting(Setting::Size),
        63 => Op::Registers(Registers::Clear),
        64 => Op::Test(Test::AtMostY),
        65 => Op::Test(Test::Negative),
        66 => Op::Test(Test::AboveY),
        67 => Op::Test(Test::Positive),
        68 => Op::Test(Test::NotY),
        69 => Op::Test(Test::NotZero),
        70 => Op::Test(Test::EqualY),
        71 => Op::Test(Test::Zero),
        72 => Op::Loop(Loop::Decrement),
        _ => Op::Loop(Loop::Increment),
    }
}

impl Flags {
    fn of_code(code: u8) -> Flags
        requires least { 74 ≤ code }
        requires greatest { code ≤ 91 }
        ensures { code_of (of_flags result) ≡ code }
    {
        match code {
            ..80 => Flags::Set(Flag { number: code - 74 }),
            80..86 => Flags::Clear(Flag { number: code - 80 }),
            _ => Flags::Test(Flag { number: code - 86 }),
        }
    }
}

impl Target {
    fn of_number(number: u8) -> Target
        requires { number < 17 }
        ensures goto { code_of (ops.goto (named result)) ≡ 108 + number }
        ensures gosub { code_of (ops.gosub (named result)) ≡ 125 + number }
    {
        if number < 16 {
            Target::Label(HexDigit { value: number })
        } else {
            Target::Index
        }
    }
}

impl Jump {
    fn of_code(code: u8) -> Jump
        requires least { 92 ≤ code }
        requires greatest { code ≤ 144 }
        ensures { code_of (of_jump result) ≡ code }
    {
        match code {
            ..108 => Jump::Label(HexDigit { value: code - 92 }),
            108..125 => Jump::Goto(Target::of_number(code - 108)),
            125..142 => Jump::Gosub(Target::of_number(code - 125)),
            142 => Jump::Return,
            143 => Jump::Pause,
            _ => Jump::RunStop,
        }
    }
}

impl Place {
    fn of_number(number: u8) -> Place
        requires { number < 34 }
        ensures store { code_of (ops.store (where_is result)) ≡ 145 + number }
        ensures recall { code_of (ops.recall (where_is result)) ≡ 179 + number }
    {
        match number {
            ..32 => Place::Direct(Register { number }),
            32 => Place::Index,
            _ => Place::Through,
        }
    }
}

impl Registers {
    fn of_code(code: u8) -> Registers
        requires least { 145 ≤ code }
        requires greatest { code ≤ 214 }
        ensures { code_of (of_registers result) ≡ code }
    {
        match code {
            ..179 => Registers::Store(Place::of_number(code - 145)),
            179..213 => Registers::Recall(Place::of_number(code - 179)),
            213 => Registers::ExchangeIndex,
            _ => Registers::ExchangeThrough,
        }
    }
}

impl Windows {
    fn of_code(code: u8) -> Windows
        requires least { 215 ≤ code }
        requires greatest { code ≤ 224 }
        ensures { code_of (of_windows result) ≡ code }
    {
        match code {
            ..223 => Windows::Show(Window { number: code - 215 }),
            223 => Windows::Left,
            _ => Windows::Right,
        }
    }
}

impl Op {
    /// The operation of a code below 225.
    #[inline(always)]
    pub fn at(code: u8) -> Op
        requires { code < 225 }
        ensures operation { operation result ≡ operation_of code }
        ensures code { code_of (operation result) ≡ code }
    {
        match code {
            ..16 => Op::Digit(HexDigit { value: code }),
            16..74 => function_at(code),
            74..92 => Op::Flags(Flags::of_code(code)),
            92..145 => Op::Jump(Jump::of_code(code)),
            145..215 => Op::Registers(Registers::of_code(code)),
            _ => Op::Windows(Windows::of_code(code)),
        }
    }

    /// The operation of a code. None from 225 on, which are no codes.
    pub fn of_code(code: u8) -> Option<Op>
        ensures made { IsSome result ↔ code < 225 }
        ensures operation { IfSome result (λ op. operation op ≡ operation_of code) }
        ensures inverse { (op : Op) → code_of (operation op) ≡ code → result ≡ Some op }
    {
        if code < 225 { Some(Op::at(code)) } else { None }
    }
}
