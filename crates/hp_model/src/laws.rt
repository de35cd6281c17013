// Each function's contract is a law of the definitions in specs/. The functions do nothing.
ghost use Rattle.hp_model.specs.Laws.{PatternsAndNumbers, NegativeZero, RegistersReadBack, Restoration, WritesNothingElse, CodesAndOperations, CompleteAnswers, RotationsAreInverse, RootsAreWhole, Steps};
ghost use Rattle.hp_model.specs.WorkedAnswers.{WorkedAnswers};
ghost use Rattle.hp_model.specs.WorkedKeyFiles.{WorkedKeyFiles};
ghost use Rattle.hp_model.specs.WorkedMemory.{WorkedMemory};

/// The definitions print what the worked key files are said to print.
pub fn worked_key_files()
    ensures { WorkedKeyFiles }
{}

/// The definitions give the answers that the worked rows of the operation table are said to give.
pub fn worked_answers()
    ensures { WorkedAnswers }
{}

/// The definitions of memory do what the worked steps are said to do.
pub fn worked_memory()
    ensures { WorkedMemory }
{}

/// A pattern is read as a number and written back, and a number that fits is written and read back.
pub fn patterns_and_numbers()
    ensures { PatternsAndNumbers }
{}

/// -0 of one's complement counts as zero.
pub fn negative_zero()
    ensures { NegativeZero }
{}

/// A register reads what was written to it, and no other nibble changes.
pub fn registers_read_back()
    ensures { RegistersReadBack }
{}

/// A register none of whose nibbles was written reads as before, whatever word sizes came between.
pub fn restoration()
    ensures { Restoration }
{}

/// Operations and keys that don't store, clear or edit write nothing.
pub fn writes_nothing_else()
    ensures { WritesNothingElse }
{}

/// Each of the 225 codes is the code of one operation.
pub fn codes_and_operations()
    ensures { CodesAndOperations }
{}

/// The answers of the machine's own data are complete, and complete answers are few.
pub fn complete_answers()
    ensures { CompleteAnswers }
{}

/// A rotation to the left and one to the right give the word back.
pub fn rotations_are_inverse()
    ensures { RotationsAreInverse }
{}

/// The root is the greatest number whose square is at most the number.
pub fn roots_are_whole()
    ensures { RootsAreWhole }
{}

/// An operation leaves memory's size and the program, and a run that goes on stands at a line.
pub fn steps()
    ensures { Steps }
{}
