//! Rules for gates, which a circuit asks before it adds one. A rule is a closure beside the fact that
//! what it answers is what the gate means, so that no rule changes what a circuit's literals mean.
//! Whoever holds the closures, as `main` or a test, boxes them and hands them in: no function here
//! makes a box.
//!
//! - a rule of a closure: `Rule::new`; rules in their order: `RuleSet::new`
//! - functions for closures to call: `constant_and`, `constant_xor`, `alike`
#![tactic(auto)]

mod arguments;
mod constants;
mod first;
mod rule;
mod set;

pub use arguments::alike;
pub use constants::{constant_and, constant_xor};
pub use rule::Rule;
pub use set::RuleSet;
