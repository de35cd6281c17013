//! The literals with which a run begins: inputs for what is free in a problem's starts, and constants
//! for what is fixed; and the literals of what a problem assumes.
#![tactic(auto)]

mod assumptions;
mod content;
mod nibbles;
mod numbers;

// The literals of a start.
pub use content::start_content;

// The literals of what is assumed.
pub use assumptions::assumption_lits;
