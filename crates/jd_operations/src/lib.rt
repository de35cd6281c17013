//! What operations do to contents of literals. Each group computes an answer by a circuit of
//! `jd_rows`, `jd_products`, `jd_places` or `jd_comparisons` and puts it where the operation puts it;
//! `change` does the operation of any group.
#![tactic(auto)]

mod arithmetic;
mod bits;
mod double;
mod logic;
mod loops;
mod operation;
mod rotations;
mod shifts;

// The operation of any group.
pub use operation::change;
