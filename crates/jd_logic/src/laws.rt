//! What holds of the definitions alone: the worked examples that they are tried on before any code
//! is.
ghost use Rattle.jd_logic.specs.WorkedProofs.{WorkedProofs, WorkedFaults, WorkedTexts};

/// The definitions answer the worked proofs as they are said to.
pub fn worked_proofs()
    ensures { WorkedProofs }
{}

/// The definitions find in the worked bad proofs the fault that each is said to have.
pub fn worked_faults()
    ensures { WorkedFaults }
{}

/// The definitions read the worked texts as they are said to, up to the numbers at their ranges' ends.
pub fn worked_texts()
    ensures { WorkedTexts }
{}
