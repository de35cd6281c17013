//! Rules that may answer a gate by a literal before the circuit looks at it. Whatever they answer,
//! the circuit's contracts are the same: a gate has at most one literal over its arguments'
//! variables.
ghost use Rattle.std.specs.Prelude.{◌≡◌, None};
ghost use Rattle.std.specs.declared.option.Option.{Option};
ghost use Rattle.jd_circuit.specs.declared.literals.Lit.{Lit};
ghost use Rattle.jd_circuit.specs.declared.literals.Gate.{Gate};
ghost use Rattle.jd_circuit.specs.Meaning.{HasMeaningOf, IsFromArguments};

use crate::literals::{Gate, Lit};

/// What may answer a gate by a literal that has the gate's meaning for all values of the variables,
/// and is a constant or a literal of an argument's variable. `may_answer` tells which answers it
/// may give to which gates.
pub trait Rewrite: Drop {
    ghost may_answer: { Self → Gate → Option Lit → Type 0 };

    /// A literal that the gate is, if the rule knows one. The arguments may be constants or equal.
    fn rewrite(&self, gate: Gate) -> Option<Lit>
        ensures answers { may_answer self.now gate result }
        ensures meaning { HasMeaningOf gate result }
        ensures variable { IsFromArguments gate result };
}

/// No rules: no gate is answered.
#[derive(Clone, Copy, Debug, Default)]
pub struct NoRules;

impl Rewrite for NoRules {
    ghost may_answer = { λ _ _ answer. answer ≡ None };

    fn rewrite(&self, _gate: Gate) -> Option<Lit> {
        None
    }
}
