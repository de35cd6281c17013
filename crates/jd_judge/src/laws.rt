//! What follows from the judge's answers, as functions without a body: whoever has an answer cites
//! them, and nothing here runs.
ghost use Rattle.jd_judge.specs.Laws.{FewPaths, Sound, Completeness};

/// Where Equal is answered, all allowed starts agree.
pub fn equal_is_sound()
    ensures { Sound }
{}

/// Where Equal is answered, no more starts than the problem has paths give different answers.
pub fn few_paths()
    ensures { FewPaths }
{}

/// Where the budget suffices for all values of the free bits, and no more starts than the problem
/// has paths give different answers, the judge answers Equal where all allowed starts agree, and
/// Different where one doesn't.
pub fn completeness()
    ensures { Completeness }
{}
