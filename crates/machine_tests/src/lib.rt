//! Rows worked by hand for the public calls of the machine's crates. They stand together, since a crate
//! that has tests of its own is proved once more with them.
#![tactic(auto)]

#[cfg(test)]
mod arithmetic;
#[cfg(test)]
mod bits;
#[cfg(test)]
mod displays;
#[cfg(test)]
mod double;
#[cfg(test)]
mod edits;
#[cfg(test)]
mod memory;
#[cfg(test)]
mod operations;
#[cfg(test)]
mod prefixes;
#[cfg(test)]
mod runs;
