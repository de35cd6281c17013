//! Pairs of routines that are generated from a number: what they are, and that they agree from every
//! allowed start.
#![tactic(auto)]

mod laws;

pub use laws::{generated_routines_agree, generated_routines_ask_once, worked_generated};
