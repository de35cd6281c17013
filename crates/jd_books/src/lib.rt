//! What a judge of two routines says: paths of answers, trees of certificates, leaves and their
//! clauses, books of leaves, and what makes them faithful. The definitions stand in `specs/`; the
//! types that definitions and code share stand here.
#![tactic(auto)]

pub mod laws;
