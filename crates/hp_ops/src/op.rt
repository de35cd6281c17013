// An operation is one of its group.
use crate::groups::{
    Arithmetic, Bits, Double, Flags, Jump, Logic, Loop, Registers, Rotation, Setting, Shift, Stack,
    Test, Windows,
};
use crate::numbers::HexDigit;

/// An operation of the machine.
#[derive(Clone, Copy, Debug, PartialEq, Eq)]
pub enum Op {
    Digit(HexDigit),
    Stack(Stack),
    Arithmetic(Arithmetic),
    Double(Double),
    Shift(Shift),
    Rotate(Rotation),
    RotateMany(Rotation),
    Bits(Bits),
    Logic(Logic),
    Setting(Setting),
    Test(Test),
    Loop(Loop),
    Flags(Flags),
    Jump(Jump),
    Registers(Registers),
    Windows(Windows),
}

/// What an operation asks of the data before control is decided. `Nothing` is an operation that asks
/// nothing.
#[derive(Clone, Copy, Debug, PartialEq, Eq)]
pub enum AskKind {
    Nothing,
    Test,
    Flag,
    Divisor,
    Negative,
    Double,
    Count,
    Bit,
    BitTest,
    Zero,
    Index,
    Label,
    Size,
}
