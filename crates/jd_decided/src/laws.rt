//! What lets the judge ask a prover of a leaf and believe it: the inputs decide the clauses, a
//! model gives a value to every variable, and the lines of a refutation are right and end in the
//! empty clause.
ghost use Rattle.jd_decided.specs.Laws.{LeavesAreDecided, ModelsAreValues, RefutationsCheck};

/// Once the inputs of a leaf have values, unit propagation over its clauses gives every variable a
/// value, or makes a clause false.
pub fn leaves_are_decided()
    ensures { LeavesAreDecided }
{}

/// A model of clauses is values of all variables that make the clauses true.
pub fn models_are_values()
    ensures { ModelsAreValues }
{}

/// The lines of a refutation are right, and derive the empty clause.
pub fn refutations_check()
    ensures { RefutationsCheck }
{}
