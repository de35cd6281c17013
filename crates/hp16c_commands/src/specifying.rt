//! The command `spec`: reads a spec, and gives the judge's answer whether its routine gives what its
//! formulas say. No problem is written before it: a certificate's leaves are those of the spec, which
//! no problem says.
ghost use Rattle.std.specs.Prelude.{◌≤◌, length, IfOk};
ghost use Rattle.hp16c_commands.specs.Answered.{answer_of};
ghost use Rattle.hp16c_commands.specs.Specifying.{SpecAnswers};
ghost use Rattle.hp16c_commands.specs.WholeInputs.{limit_of};

use crate::judging::answer_to;
use crate::told::{Answer, Heading};
use crate::whole_inputs::WholeInput;
use hp_io::Bytes;
use jd_rules::RuleSet;
use jd_spec::{Spec, read_spec, specify};
use std::alloc::{AllocError, Global};

/// The judgement of a spec, for its bytes. It takes memory for the walk, the certificate and its
/// leaves.
pub fn judge_spec(alloc: Global, bytes: &Bytes, rules: &RuleSet) -> Result<Answer, AllocError>
    requires { length bytes.now ≤ limit_of WholeInput.Spec }
    ensures { IfOk result (λ answer. SpecAnswers bytes.now (answer_of answer)) }
{
    match read_spec(bytes.as_slice()) {
        Ok(spec) => match specify(alloc, &spec, rules) {
            Ok(judged) => {
                let Spec { problem, .. } = spec;
                answer_to(alloc, Heading::Empty, problem, judged)
            }
            Err(_) => Err(AllocError),
        },
        Err(fault) => Answer::bad_line(alloc, u64::from(fault.line)),
    }
}
