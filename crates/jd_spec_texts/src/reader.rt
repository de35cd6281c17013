//! The spec that a text says, by the reader of lines over the lines of a spec.
ghost use Rattle.std.specs.Prelude.{◌≡◌, ◌+◌, ◌<◌, ◌^◌, length, Ok, Err, IfOk, IfErr};
ghost use Rattle.jd_problem.specs.Problems.{problem_of};
ghost use Rattle.jd_spec_texts.specs.SpecTexts.{spec_of};

use crate::lines::take_spec_line;
use crate::reading::SpecReading;
use crate::spec::{Spec, SpecFault};
use jd_problem::ProblemCause;
use jd_readers::{TakesLines, read_lines};

impl TakesLines for SpecReading {
    ghost use Rattle.std.specs.Prelude.{false};
    ghost use Rattle.jd_spec_texts.specs.SpecTexts.{SpecReading as ReadingValue, with_spec_line};
    ghost use Rattle.jd_spec_texts.specs.Readings.{spec_reading_of};

    type Cause = ProblemCause;

    ghost State = { ReadingValue };

    ghost state = { spec_reading_of };

    ghost with_line = { λ _. with_spec_line };

    ghost is_whole = { λ _. false };

    fn take_line(&mut self, line: &[u8]) -> Result<(), ProblemCause> {
        take_spec_line(self, line)
    }
}

/// The spec that a text says: the headers `spec 1` and `word` to `budget` as in a problem of version 2,
/// `fix` and `assume` lines, one or more `give` lines, `routine`, a line of assembly for each operation,
/// and `end`. Words stand apart by blanks, tabs and CR, and lines without words are skipped. A text that
/// ends before `end` is refused at the line after its last.
pub fn read_spec(bytes: &[u8]) -> Result<Spec, SpecFault>
    requires { length bytes.now + 1 < 2 ^ 32 }
    ensures spec { IfOk result (λ spec. spec_of bytes.now ≡ Ok (problem_of spec.problem, spec.gives)) }
    ensures fault { IfErr result (λ fault. spec_of bytes.now ≡ Err (fault.line, fault.cause)) }
{
    let mut reading = SpecReading::new();
    let count = match read_lines(&mut reading, bytes) {
        Ok(count) => count,
        Err((line, cause)) => return Err(SpecFault { line, cause }),
    };
    if !reading.problem.has_ended() {
        return Err(SpecFault {
            line: count + 1,
            cause: ProblemCause::Missing,
        });
    }
    Ok(Spec {
        problem: reading.problem.problem,
        gives: reading.gives,
    })
}
