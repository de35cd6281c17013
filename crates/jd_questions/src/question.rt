//! What control needs to know of the data, as yes or no. Each value stands for a question of
//! `hp_model`; `next` chooses it without the data, and `literals` makes its literal over the
//! content.
use hp_ops::{Flag, Loop, Test};

/// A question whose answer decides control. The places of bits are counted from the lowest.
#[derive(Clone, Copy, Debug, PartialEq, Eq)]
pub enum Question {
    Test(Test),
    Flag(Flag),
    XIsZero,
    XIsNegative,
    QuotientIsTooGreat,
    MagnitudeAboveSize,
    MagnitudeAtLeastSize,
    MagnitudeAbove64,
    BitOfY,
    CountIsZero(Loop),
    IndexPastRegisters,
    IndexAbove15,
    IndexBit(u8),
    MagnitudeBit(u8),
}
