//! A machine whose data are literals of a circuit: for a list of answers it takes exactly the
//! calculator's way, and on every list of bits that gives these answers it holds exactly the
//! calculator's data.
//!
//! - to begin: `SymMachine::begin` at a problem's start, `copy`
//! - one operation: `sym_asks` what it asks next, `sym_step` with the answers
//! - of a start: `sym_assume`, what its problem assumes
//! - a law: `operation_gates`, how many gates an operation takes in all
#![tactic(auto)]

mod beginning;
mod laws;
mod lines;
mod machine;
mod step;

pub use laws::operation_gates;
pub use machine::SymMachine;
