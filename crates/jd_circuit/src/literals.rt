//! Literals and gates: what circuits, numbers and clauses are made of.
ghost use Rattle.std.specs.Prelude.{◌≡◌};
ghost use Rattle.jd_circuit.specs.Meaning.{opposite, ordered, variable};

/// A constant, a variable or its negation. Variables are numbered from 1: first the inputs, then
/// the gates in their order.
#[derive(Clone, Copy, Debug, PartialEq, Eq, Hash)]
pub enum Lit {
    Const(bool),
    Var(u32),
    Not(u32),
}

/// A conjunction or an exclusive or.
#[derive(Clone, Copy, Debug, PartialEq, Eq, Hash)]
pub enum Gate {
    And(Lit, Lit),
    Xor(Lit, Lit),
}

/// A constant false, for the free places of a list of fixed room.
impl Default for Lit {
    fn default() -> Lit {
        Lit::Const(false)
    }
}

impl Lit {
    /// The negation.
    pub fn opposite(self) -> Lit
        ensures { result ≡ opposite self }
    {
        match self {
            Lit::Const(b) => Lit::Const(!b),
            Lit::Var(v) => Lit::Not(v),
            Lit::Not(v) => Lit::Var(v),
        }
    }

    /// The number of the variable, and 0 for a constant.
    fn variable(self) -> u32
        ensures { result ≡ variable self }
    {
        match self {
            Lit::Const(_) => 0,
            Lit::Var(v) | Lit::Not(v) => v,
        }
    }
}

impl Gate {
    /// The gate with the smaller variable first, so that either order of the arguments is one gate.
    pub(crate) fn ordered(self) -> Gate
        ensures { result ≡ ordered self }
    {
        match self {
            Gate::And(a, b) if b.variable() < a.variable() => Gate::And(b, a),
            Gate::Xor(a, b) if b.variable() < a.variable() => Gate::Xor(b, a),
            gate => gate,
        }
    }
}
