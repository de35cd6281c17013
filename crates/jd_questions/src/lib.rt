//! What operations ask of contents of literals: which question is next, and the literal that is its
//! answer.
#![tactic(auto)]

mod asking;
mod conditions;
mod literals;
mod next;
mod numbers;
mod question;

// The literal of an operation's next question.
pub use asking::asks;
