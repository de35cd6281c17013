//! The command `short`: reads a problem as `judge` does, and gives a shorter routine than its first with
//! the certificate that the two agree. The judge's answer is told where the source doesn't agree with
//! itself.
ghost use Rattle.std.specs.Prelude.{◌≡◌, ◌≤◌, length, IfOk};
ghost use Rattle.jd_problem.specs.Problems.{problem_of};
ghost use Rattle.jd_short.specs.Shortened.{IsShortened};
ghost use Rattle.hp16c_commands.specs.Answered.{answer_of};
ghost use Rattle.hp16c_commands.specs.Shortening.{ShortAnswers, shortening};
ghost use Rattle.hp16c_commands.specs.WholeInputs.{limit_of};

use crate::judging::{answer_to, read_input};
use crate::told::{Answer, Heading};
use crate::whole_inputs::WholeInput;
use hp_io::Bytes;
use jd_problem::Problem;
use jd_rules::RuleSet;
use jd_short::{Shortened, paired, shorten};
use std::alloc::{AllocError, Global};

/// What is answered where a problem's first routine was shortened.
fn short_answer(
    alloc: Global,
    problem: &Problem,
    shortened: Shortened,
) -> Result<Answer, AllocError>
    requires { IsShortened (problem_of problem.now) shortened }
    ensures { IfOk result (λ answer. answer_of answer ≡ shortening (problem_of problem.now) shortened) }
{
    match shortened {
        Shortened::Done {
            routine,
            book,
            cert,
            refusals,
        } => Ok(Answer::short(paired(problem, &routine), book, cert, refusals)),
        Shortened::Not(judged) => {
            let source = paired(problem, &problem.first);
            let answer = answer_to(alloc, Heading::Problem, source, judged)?;
            Ok(answer)
        }
    }
}

/// The shortening of a problem's first routine, for the problem's bytes.
pub fn shorten_problem(alloc: Global, bytes: &Bytes, rules: &RuleSet) -> Result<Answer, AllocError>
    requires { length bytes.now ≤ limit_of WholeInput.Short }
    ensures { IfOk result (λ answer. ShortAnswers bytes.now (answer_of answer)) }
{
    match read_input(bytes.as_slice()) {
        Ok(problem) => match shorten(alloc, &problem, rules) {
            Ok(shortened) => short_answer(alloc, &problem, shortened),
            Err(_) => Err(AllocError),
        },
        Err(line) => Answer::bad_line(alloc, line),
    }
}
