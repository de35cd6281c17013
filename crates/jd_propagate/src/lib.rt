//! Unit propagation over clauses by two watched literals of each, to its end, with the reason for
//! each literal that becomes true.
//!
//! Clauses and the trail: `attach::watch`, `Trail`, `Reason`. Propagation: `propagate::propagate`.
//! The answers of a search: `Proof`.
#![tactic(auto)]

pub mod attach;
mod lists;
mod proof;
pub mod propagate;
mod reason;
pub mod trail;
mod watch;

pub use jd_bits::Bits;
pub use jd_lrat::{Clause, Clauses, Hints, Line, Log, NoMemory};
pub use proof::Proof;
pub use reason::Reason;
pub use trail::Trail;
