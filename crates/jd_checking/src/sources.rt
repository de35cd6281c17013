//! A problem and a certificate that a source holds, one after the other. Lines are counted over
//! both, and the source is read to its end whatever they say, since too many bytes go before a bad
//! line.
ghost use Rattle.std.specs.Prelude.{◌≡◌, ◌+◌, ◌<◌, ◌≤◌, ◌^◌, length, Err, IfOk, OnErr};
ghost use Rattle.hp_io.specs.Causes.{CallsAtMost, Rose};
ghost use Rattle.hp_io.specs.Limited.{Takes, TakesAtMost};
ghost use Rattle.jd_checking.specs.Finds.{Costs, IsFound};
ghost use Rattle.jd_checking.specs.SourceChecks.{IsAnswer};

use crate::certificates::check_certificate;
use crate::source_checked::SourceChecked;
use hp_io::Source;
use jd_lines::{LineStop, SourceLines, read_until};
use jd_problem::{ProblemCause, ProblemReader};
use jd_rules::RuleSet;
use std::alloc::Global;

/// Checks a source's lines as a problem and then a certificate, up to the first bad one.
fn check_lines<S: Source>(
    alloc: Global,
    rules: &RuleSet,
    lines: &mut SourceLines,
    source: &mut S,
) -> Result<SourceChecked, LineStop>
    requires { length lines.old.held + lines.old.within + 1 < 2 ^ 32 }
    ensures found { IfOk result (IsFound lines.old lines.new (S.left source.old) (S.left source.new)) }
    ensures costs { Costs lines.old lines.new (S.left source.old) (S.left source.new)
        (S.faults source.old) (S.faults source.new) (S.calls source.old) (S.calls source.new) result }
{
    let mut reader = ProblemReader::new();
    let read = match read_until(lines, source, &mut reader, ProblemCause::Missing) {
        Ok(read) => read,
        Err(stop) => return Err(stop),
    };
    let before = match read {
        Ok(before) => before,
        Err((line, _)) => return Ok(SourceChecked::BadLine(line)),
    };
    let answer = match check_certificate(alloc, &reader.problem, rules, lines, source) {
        Ok(answer) => answer,
        Err(stop) => return Err(stop),
    };
    match answer {
        Ok(checked) => Ok(SourceChecked::Checked(checked)),
        Err(line) => Ok(SourceChecked::BadLine(before + u64::from(line))),
    }
}

/// Checks the certificate that follows a problem in a source. The source is read line by line to its
/// end, and no further than one byte past the limit: too many bytes go before a bad line, so after
/// one the rest is read and counted alone. It takes memory for the problem's leaves and their lines of
/// proof, and for the longest line of the text. After an `Err` the source has lost what was read.
pub fn check_source<S: Source>(
    alloc: Global,
    source: &mut S,
    limit: u64,
    rules: &RuleSet,
) -> Result<SourceChecked, LineStop>
    requires { limit + 1 < 2 ^ 32 }
    ensures answer { IfOk result (IsAnswer limit (S.left source.old) (S.left source.new)) }
    ensures too_long { result ≡ Err LineStop.TooLong
        → Takes (limit + 1) (S.left source.old) (S.left source.new) }
    ensures stopped { OnErr result (TakesAtMost (limit + 1) (S.left source.old) (S.left source.new)) }
    ensures failed { result ≡ Err LineStop.Failed
        → Rose (S.faults source.old) (S.faults source.new) }
    ensures faults { S.faults source.old ≤ S.faults source.new }
    ensures calls { CallsAtMost (limit + 1) (S.calls source.old) (S.calls source.new) }
{
    let mut lines = SourceLines::new(alloc, limit);
    let answer = match check_lines(alloc, rules, &mut lines, source) {
        Ok(answer) => answer,
        Err(stop) => return Err(stop),
    };
    match lines.skip(source) {
        Ok(()) => Ok(answer),
        Err(stop) => Err(stop),
    }
}
