//! Circuits of conjunctions and exclusive ors over inputs, in which no gate stands twice and a
//! literal keeps its meaning while gates are added. A number of a judge's question is a list of
//! such literals.
//!
//! - to make a circuit: `Circuit::new`, under rules (`Rewrite`) that know gates, or none
//!   (`NoRules`)
//! - to add gates: `Circuit::and`, `Circuit::xor`, each of which answers a `Lit`; `Lit::opposite`
//! - to go back: `Circuit::mark`, `Circuit::back_to`
//! - to read it: `Circuit::eval` on a list of `Bits`, `Circuit::gates`
#![tactic(auto)]

mod circuit;
mod evaluation;
mod gates;
mod literals;
mod rewrite;
mod simple;

pub use circuit::{Circuit, Mark};
pub use gates::Gates;
pub use hp_io::NoMemory;
pub use jd_bits::Bits;
pub use literals::{Gate, Lit};
pub use rewrite::{NoRules, Rewrite};
