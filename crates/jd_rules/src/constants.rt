//! What gates with a constant argument are: functions that a rule's closure calls.
ghost use Rattle.jd_circuit.specs.Meaning.{HasMeaningOf, IsFromArguments};

use jd_circuit::{Gate, Lit};

/// A conjunction with a constant argument: false, or the other argument.
pub fn constant_and(gate: Gate) -> Option<Lit>
    ensures meaning { HasMeaningOf gate result }
    ensures variable { IsFromArguments gate result }
{
    match gate {
        Gate::And(Lit::Const(c), l) => Some(if c { l } else { Lit::Const(false) }),
        Gate::And(l, Lit::Const(c)) => Some(if c { l } else { Lit::Const(false) }),
        _ => None,
    }
}

/// An exclusive or with a constant argument: the other argument, or its negation.
pub fn constant_xor(gate: Gate) -> Option<Lit>
    ensures meaning { HasMeaningOf gate result }
    ensures variable { IsFromArguments gate result }
{
    match gate {
        Gate::Xor(Lit::Const(c), l) => Some(if c { l.opposite() } else { l }),
        Gate::Xor(l, Lit::Const(c)) => Some(if c { l.opposite() } else { l }),
        _ => None,
    }
}
