//! That the clauses of leaves may be handed to a prover, and what its answers say of them: the inputs
//! decide them, a model is values of all variables, and a refutation leaves no values. It stands on
//! the definitions of leaves and of searches alone.
#![tactic(auto)]

pub mod laws;
