//! A rule: a closure that answers gates, and what is known of its answers.
ghost use Rattle.std.specs.Prelude.{◌≡◌};
ghost use Rattle.jd_rules.specs.Answers.{AreFromArguments, HaveMeaning};

use jd_circuit::{Gate, Lit, Rewrite};

type Closure = Box<dyn Fn(Gate) -> Option<Lit>>;

/// A closure beside the facts that it may be asked for any gate, and that each answer has the
/// gate's meaning and is a constant or a literal of an argument's variable.
#[derive(Drop)]
pub struct Rule {
    closure: Closure,
    ghost callable: { Closure.IsAlwaysCallable closure },
    ghost meaning: { HaveMeaning (Closure.post closure) },
    ghost variable: { AreFromArguments (Closure.post closure) },
}

impl Rule {
    /// A rule that answers what the closure answers. Takes no memory.
    pub fn new(closure: Closure) -> Rule
        requires callable { Closure.IsAlwaysCallable closure }
        requires meaning { HaveMeaning (Closure.post closure) }
        requires variable { AreFromArguments (Closure.post closure) }
        ensures { result.closure ≡ closure }
    {
        Rule { closure }
    }
}

/// A rule answers what its closure answers.
impl Rewrite for Rule {
    ghost may_answer = { λ rule gate answer. Closure.post rule.closure gate answer };

    fn rewrite(&self, gate: Gate) -> Option<Lit> {
        (self.closure)(gate)
    }
}
