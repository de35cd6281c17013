//! A list of gates, as a circuit hands its own out.
ghost use Rattle.std.specs.Prelude.{◌≡◌};

use crate::literals::Gate;
use std::marker::Model;

/// Gates in the order of their numbers. Gate number j, from 1, is the variable after the inputs and
/// the j - 1 gates before it.
#[derive(Drop)]
pub struct Gates {
    gates: Vec<Gate>,
}

impl Model for Gates {
    ghost use Rattle.std.specs.Prelude.{List};
    ghost use Rattle.jd_circuit.specs.declared.literals.Gate.{Gate};

    ghost Value = { List Gate };

    ghost view = { λ g. g.gates.items };
}

impl Gates {
    /// The list of a vector's gates. Takes no memory.
    pub fn new(gates: Vec<Gate>) -> Gates
        ensures { result ≡ gates.items }
    {
        Gates { gates }
    }

    /// The gates as a slice.
    pub fn as_slice(&self) -> &[Gate]
        ensures { result.now ≡ self.now }
    {
        self.gates.as_slice()
    }

    /// The vector that holds the gates. Takes no memory.
    pub fn into_vec(self) -> Vec<Gate>
        ensures { result.items ≡ self }
    {
        self.gates
    }
}
