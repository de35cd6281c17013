//! The operations of the machine, one for each form of the operation table of the HP-16C Owner's
//! Handbook's integer modes: 225 in all, with their codes and listing texts.
#![tactic(auto)]

mod asks;
mod codes;
pub mod groups;
pub mod numbers;
mod of_codes;
pub mod op;
mod texts;

// An operation: `code`, `of_code`, `text` and `asks_kind`.
pub use op::{AskKind, Op};

// Its groups, and the numbers that it carries.
pub use groups::{
    Arithmetic, Bits, Double, Flags, Jump, Logic, Loop, Place, Registers, Rotation, Setting, Shift,
    Stack, Target, Test, Windows,
};
pub use numbers::{Flag, HexDigit, Register, Window};
