//! Why the judge's answer for a generated problem can only be that its routines are equal.
ghost use Rattle.jd_generated.specs.Laws.{GeneratedRoutinesAgree, GeneratedRoutinesAskOnce};
ghost use Rattle.jd_generated.specs.WorkedGenerated.{WorkedGenerated};

/// The two routines of each generated problem agree from every allowed start.
pub fn generated_routines_agree()
    ensures { GeneratedRoutinesAgree }
{}

/// Each routine of a generated problem asks once from every allowed start, whether X is zero, so that a
/// judge meets two paths.
pub fn generated_routines_ask_once()
    ensures { GeneratedRoutinesAskOnce }
{}

/// The definition of generated problems gives what was worked by hand.
pub fn worked_generated()
    ensures { WorkedGenerated }
{}
