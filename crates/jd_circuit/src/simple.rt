//! Gates that need not stand in a circuit: with a constant argument, equal arguments or an argument
//! beside its negation, they are a constant or a literal of an argument.
ghost use Rattle.std.specs.Prelude.{◌≡◌, if◌then◌else◌};
ghost use Rattle.jd_circuit.specs.Meaning.{simple, simple_and, simple_xor};

use crate::literals::{Gate, Lit};

// A literal where a test holds.
fn some_if(test: bool, l: Lit) -> Option<Lit>
    ensures { result ≡ (if test then Some l else None) }
{
    if test { Some(l) } else { None }
}

// The literal that a conjunction is, where an argument is constant or both have one variable.
fn simple_and(a: Lit, b: Lit) -> Option<Lit>
    ensures { result ≡ simple_and a b }
{
    match a {
        Lit::Const(c) => Some(if c { b } else { Lit::Const(false) }),
        Lit::Var(x) => match b {
            Lit::Const(c) => Some(if c { Lit::Var(x) } else { Lit::Const(false) }),
            Lit::Var(y) => some_if(x == y, Lit::Var(x)),
            Lit::Not(y) => some_if(x == y, Lit::Const(false)),
        },
        Lit::Not(x) => match b {
            Lit::Const(c) => Some(if c { Lit::Not(x) } else { Lit::Const(false) }),
            Lit::Var(y) => some_if(x == y, Lit::Const(false)),
            Lit::Not(y) => some_if(x == y, Lit::Not(x)),
        },
    }
}

// The literal that an exclusive or is, where an argument is constant or both have one variable.
fn simple_xor(a: Lit, b: Lit) -> Option<Lit>
    ensures { result ≡ simple_xor a b }
{
    match a {
        Lit::Const(c) => Some(if c { b.opposite() } else { b }),
        Lit::Var(x) => match b {
            Lit::Const(c) => Some(if c { Lit::Not(x) } else { Lit::Var(x) }),
            Lit::Var(y) => some_if(x == y, Lit::Const(false)),
            Lit::Not(y) => some_if(x == y, Lit::Const(true)),
        },
        Lit::Not(x) => match b {
            Lit::Const(c) => Some(if c { Lit::Var(x) } else { Lit::Not(x) }),
            Lit::Var(y) => some_if(x == y, Lit::Const(true)),
            Lit::Not(y) => some_if(x == y, Lit::Const(false)),
        },
    }
}

impl Gate {
    /// The literal that the gate is, where an argument is constant or both have one variable.
    pub(crate) fn simple(self) -> Option<Lit>
        ensures { result ≡ simple self }
    {
        match self {
            Gate::And(a, b) => simple_and(a, b),
            Gate::Xor(a, b) => simple_xor(a, b),
        }
    }
}
