//! What follows from a check's answers, as functions without a body: whoever has an answer cites
//! them, and nothing here runs.
ghost use Rattle.jd_check.specs.Laws.{OneRightAnswer, Sound};

/// Where Equal is answered, all allowed starts agree.
pub fn checked_is_sound()
    ensures { Sound }
{}

/// A tree has one right answer with each book.
pub fn one_right_answer()
    ensures { OneRightAnswer }
{}
