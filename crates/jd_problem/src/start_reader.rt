// The start that a text says, by the reader of lines over the lines of a start.
ghost use Rattle.std.specs.Prelude.{◌≡◌, ◌+◌, ◌<◌, ◌^◌, true, length, Ok, Err, IfOk, IfErr};
ghost use Rattle.jd_model.specs.Problems.{allows};
ghost use Rattle.jd_model.specs.StartTexts.{start_of_text};
ghost use Rattle.jd_problem.specs.Problems.{problem_of};
ghost use Rattle.jd_start.specs.Starts.{start_data};

use crate::faults::ProblemFault;
use crate::problem::Problem;
use crate::start_lines::take_start_line;
use crate::start_reading::StartReading;
use jd_model::ProblemCause;
use jd_readers::{TakesLines, read_lines};
use jd_start::Start;

/// The lines of a start for a problem.
#[derive(Drop)]
struct StartLines<'a> {
    problem: &'a Problem,
    reading: StartReading,
}

impl TakesLines for StartLines<'_> {
    ghost use Rattle.std.specs.Prelude.{false};
    ghost use Rattle.jd_model.specs.StartTexts.{StartReading as ReadingValue, with_start_line};
    ghost use Rattle.jd_problem.specs.Problems.{problem_of};

    type Cause = ProblemCause;

    ghost State = { ReadingValue };

    ghost state = { λ lines. lines.reading };

    ghost with_line = { λ lines. with_start_line (problem_of lines.problem.now) };

    ghost is_whole = { λ _. false };

    fn take_line(&mut self, line: &[u8]) -> Result<(), ProblemCause> {
        take_start_line(self.problem, &mut self.reading, line)
    }
}

/// The start that a text says, for a problem: `start`, the words X, Y, Z, T, L and I each with a number
/// in hexadecimal, `flags` with flag 5 to flag 0, `M` with the nibbles from nibble 0 upwards, of which
/// zeros at the end may be left out, and `end`, each on a line of its own. Lines without words are
/// skipped.
pub fn read_start(problem: &Problem, bytes: &[u8]) -> Result<Start, ProblemFault>
    requires { length bytes.now + 1 < 2 ^ 32 }
    ensures start { IfOk result (λ start. start_of_text (problem_of problem.now) bytes.now
        ≡ Ok (start_data start)) }
    ensures allowed { IfOk result (λ start. allows (problem_of problem.now) (start_data start) ≡ true) }
    ensures fault { IfErr result (λ fault. start_of_text (problem_of problem.now) bytes.now
        ≡ Err (fault.line, fault.cause)) }
{
    let mut lines = StartLines {
        problem,
        reading: StartReading::new(),
    };
    let count = match read_lines(&mut lines, bytes) {
        Ok(count) => count,
        Err((line, cause)) => return Err(ProblemFault { line, cause }),
    };
    if lines.reading.given() < 10 {
        return Err(ProblemFault {
            line: count + 1,
            cause: ProblemCause::Missing,
        });
    }
    Ok(lines.reading.into_start())
}
