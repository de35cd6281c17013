//! Rows worked by hand for the public calls of the crates of streams, lines, routines as text and proofs.
//! They stand together, since a crate that has tests of its own is proved once more with them.
#![tactic(auto)]

#[cfg(test)]
mod assembly;
#[cfg(test)]
mod lines;
#[cfg(test)]
mod refutations;
#[cfg(test)]
mod streams;
