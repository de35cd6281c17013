//! Rules in their order, of which the first that has an answer gives it.
ghost use Rattle.std.specs.Prelude.{◌≡◌};
ghost use Rattle.jd_rules.specs.Answers.{FirstOf};

use crate::first::first_answer;
use crate::rule::Rule;
use jd_circuit::{Gate, Lit, Rewrite};

type Closure = Box<dyn Fn(Gate) -> Option<Lit>>;

/// Rules in their order.
#[derive(Drop)]
pub struct RuleSet {
    rules: Vec<Rule>,
}

impl RuleSet {
    /// The set of a vector's rules. Takes no memory.
    pub fn new(rules: Vec<Rule>) -> RuleSet
        ensures { result.rules.items ≡ rules.items }
    {
        RuleSet { rules }
    }
}

/// The first rule that has an answer gives it.
impl Rewrite for RuleSet {
    ghost may_answer = { λ set. FirstOf (λ rule. Closure.post rule.closure) set.rules.items };

    fn rewrite(&self, gate: Gate) -> Option<Lit> {
        first_answer(self.rules.as_slice(), gate)
    }
}
