// The problem at the beginning of a text, by the reader of lines over the lines of a problem.
ghost use Rattle.std.specs.Prelude.{◌≡◌, ◌+◌, ◌<◌, ◌^◌, length, Err, IfOk, IfErr};
ghost use Rattle.jd_model.specs.ProblemTexts.{problem_of as problem_of_text};
ghost use Rattle.jd_problem.specs.Problems.{problem_of};
ghost use Rattle.jd_problem.specs.ProblemTexts.{IsProblemTo};

use crate::faults::ProblemFault;
use crate::problem::Problem;
use crate::problem_lines::take_problem_line;
use crate::reading::Reading;
use jd_model::ProblemCause;
use jd_readers::{TakesLines, TakesLinesToEnd, read_until};

impl TakesLines for Reading {
    ghost use Rattle.jd_model.specs.ProblemTexts.{Reading as ReadingValue, with_problem_line, is_whole};
    ghost use Rattle.jd_problem.specs.Readings.{reading_of};

    type Cause = ProblemCause;

    ghost State = { ReadingValue };

    ghost state = { reading_of };

    ghost with_line = { λ _. with_problem_line };

    ghost is_whole = { is_whole };

    fn take_line(&mut self, line: &[u8]) -> Result<(), ProblemCause> {
        take_problem_line(self, line)
    }
}

impl TakesLinesToEnd for Reading {
    fn is_whole(&self) -> bool {
        self.has_ended()
    }
}

/// The problem at the beginning of a text, and the number of bytes up to and with its `end` line, the line
/// feed of that line included where there is one. Words stand apart by blanks, tabs and CR, and lines
/// without words are skipped. What follows the `end` line isn't looked at. A text that ends before it is
/// refused at the line after its last.
pub fn read_problem(bytes: &[u8]) -> Result<(Problem, usize), ProblemFault>
    requires { length bytes.now + 1 < 2 ^ 32 }
    ensures problem { IfOk result (λ read. IsProblemTo bytes.now (problem_of read.0) read.1) }
    ensures fault { IfErr result (λ fault. problem_of_text bytes.now ≡ Err (fault.line, fault.cause)) }
{
    let mut reading = Reading::new();
    match read_until(&mut reading, bytes, ProblemCause::Missing) {
        Ok(end) => Ok((reading.problem, end)),
        Err((line, cause)) => Err(ProblemFault { line, cause }),
    }
}
