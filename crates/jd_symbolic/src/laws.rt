//! Contracts bound the gates of each question and of a step one by one. Here they are bounded
//! together: no operation takes more than 2^18 in all, whatever its control. No code runs.
ghost use Rattle.jd_symbolic.specs.Laws.{OperationGates};

/// All that an operation asks and its step take at most 2^18 gates.
pub fn operation_gates()
    ensures { OperationGates }
{}
