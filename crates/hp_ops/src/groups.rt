// The groups of operations, by the part of the machine that they work on.
use crate::numbers::{Flag, HexDigit, Register, Window};
use hp_model::{Base, Mode};

/// Moves on the stack X, Y, Z and T.
#[derive(Clone, Copy, Debug, PartialEq, Eq)]
pub enum Stack {
    Enter,
    RollDown,
    RollUp,
    Exchange,
    ClearX,
    LastX,
}

/// Arithmetic on Y and X, or on X alone.
#[derive(Clone, Copy, Debug, PartialEq, Eq)]
pub enum Arithmetic {
    Add,
    Subtract,
    Multiply,
    Divide,
    Remainder,
    ChangeSign,
    Absolute,
    SquareRoot,
}

/// The double functions, whose product or dividend has two words.
#[derive(Clone, Copy, Debug, PartialEq, Eq)]
pub enum Double {
    Multiply,
    Divide,
    Remainder,
}

/// Shifts of X by one place, and left justification.
#[derive(Clone, Copy, Debug, PartialEq, Eq)]
pub enum Shift {
    Left,
    Right,
    Arithmetic,
    Justify,
}

/// The ways to rotate, two of them through the carry.
#[derive(Clone, Copy, Debug, PartialEq, Eq)]
pub enum Rotation {
    Left,
    Right,
    LeftCarry,
    RightCarry,
}

/// Masks, the count of ones, and single bits of Y.
#[derive(Clone, Copy, Debug, PartialEq, Eq)]
pub enum Bits {
    MaskLeft,
    MaskRight,
    CountOnes,
    Set,
    Clear,
    Test,
}

/// Logic on each bit.
#[derive(Clone, Copy, Debug, PartialEq, Eq)]
pub enum Logic {
    Not,
    And,
    Or,
    Xor,
}

/// The base, the mode and the word size, which X gives.
#[derive(Clone, Copy, Debug, PartialEq, Eq)]
pub enum Setting {
    Base(Base),
    Mode(Mode),
    Size,
}

/// The tests of X, after which the next line is skipped where they fail.
#[derive(Clone, Copy, Debug, PartialEq, Eq)]
pub enum Test {
    AtMostY,
    Negative,
    AboveY,
    Positive,
    NotY,
    NotZero,
    EqualY,
    Zero,
}

/// Counting in the index register, after which the next line is skipped at zero.
#[derive(Clone, Copy, Debug, PartialEq, Eq)]
pub enum Loop {
    Decrement,
    Increment,
}

/// Flags set, cleared and tested.
#[derive(Clone, Copy, Debug, PartialEq, Eq)]
pub enum Flags {
    Set(Flag),
    Clear(Flag),
    Test(Flag),
}

/// Where a label is named: by itself, or by the number in the index register.
#[derive(Clone, Copy, Debug, PartialEq, Eq)]
pub enum Target {
    Label(HexDigit),
    Index,
}

/// What decides which line comes next.
#[derive(Clone, Copy, Debug, PartialEq, Eq)]
pub enum Jump {
    Label(HexDigit),
    Goto(Target),
    Gosub(Target),
    Return,
    Pause,
    RunStop,
}

/// Where a register is named: by its number, the index register itself, or the register whose number
/// is in the index register.
#[derive(Clone, Copy, Debug, PartialEq, Eq)]
pub enum Place {
    Direct(Register),
    Index,
    Through,
}

/// Registers stored, recalled, exchanged with X and cleared.
#[derive(Clone, Copy, Debug, PartialEq, Eq)]
pub enum Registers {
    Store(Place),
    Recall(Place),
    ExchangeIndex,
    ExchangeThrough,
    Clear,
}

/// Which eight digits the display shows.
#[derive(Clone, Copy, Debug, PartialEq, Eq)]
pub enum Windows {
    Show(Window),
    Left,
    Right,
}
