//! What is proved of the definitions, as functions without a body: the worked texts are read as
//! they are said to be.
ghost use Rattle.jd_checking.specs.WorkedInputs.{WorkedInputs};

/// The definitions read the worked texts as they are said to.
pub fn worked_inputs()
    ensures { WorkedInputs }
{}
