ghost use Rattle.jd_model.specs.Laws.{RoutinesReadBack, ProblemsReadBack, StartsReadBack, BitsOfStarts};
ghost use Rattle.jd_model.specs.WorkedTexts.{WorkedTexts};
ghost use Rattle.jd_model.specs.WorkedProblems.{WorkedProblems, WorkedVersions, WorkedStarts, WorkedBits};
ghost use Rattle.jd_model.specs.WorkedReplays.{WorkedReplays};

/// The definitions of assembly and codes give what the worked examples say.
pub fn worked_texts()
    ensures { WorkedTexts }
{}

/// The same of problems.
pub fn worked_problems()
    ensures { WorkedProblems }
{}

/// The same of problems of version 2.
pub fn worked_versions()
    ensures { WorkedVersions }
{}

/// The same of starts.
pub fn worked_starts()
    ensures { WorkedStarts }
{}

/// The same of free bits.
pub fn worked_bits()
    ensures { WorkedBits }
{}

/// The same of replays.
pub fn worked_replays()
    ensures { WorkedReplays }
{}

/// A routine that is written reads back, as assembly and as codes.
pub fn routines_read_back()
    ensures { RoutinesReadBack }
{}

/// A problem that is written reads back.
pub fn problems_read_back()
    ensures { ProblemsReadBack }
{}

/// A start that is written reads back.
pub fn starts_read_back()
    ensures { StartsReadBack }
{}

/// The free bits of a start and the start of some bits are inverse.
pub fn bits_of_starts()
    ensures { BitsOfStarts }
{}
