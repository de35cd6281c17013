//! What a search for a proof answers: unit propagation to its end, lines that give it something
//! new, refutations, models and logs that spent their budget. The definitions stand in `specs/`;
//! here is the law that they compute the worked answers.
#![tactic(auto)]

ghost use Rattle.jd_proving.specs.WorkedProving.{WorkedProving};

/// The definitions of propagation and of a search's answers compute the worked ones.
pub fn worked_proving()
    ensures { WorkedProving }
{}
