//! The first answer of a list of rules, whatever they are.
ghost use Rattle.jd_circuit.specs.Meaning.{HasMeaningOf, IsFromArguments};
ghost use Rattle.jd_rules.specs.Answers.{FirstOf};

use jd_circuit::{Gate, Lit, Rewrite};

/// Asks the rules in their order until one has an answer.
pub(crate) fn first_answer<R: Rewrite>(rules: &[R], gate: Gate) -> Option<Lit>
    ensures answers { FirstOf R.may_answer rules.now gate result }
    ensures meaning { HasMeaningOf gate result }
    ensures variable { IsFromArguments gate result }
{
    for rule in rules {
        if let Some(l) = rule.rewrite(gate) {
            return Some(l);
        }
    }
    None
}
