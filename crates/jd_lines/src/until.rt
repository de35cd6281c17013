//! A reader that takes the lines of a source, as far as it wants them.
ghost use Rattle.std.specs.Prelude.{◌≡◌, ◌+◌, ◌<◌, ◌≤◌, ◌^◌, length, Err, IfOk, OnErr, OnOk};
ghost use Rattle.hp_io.specs.Causes.{CallsAtMost, Rose};
ghost use Rattle.hp_io.specs.Limited.{Takes, TakesAtMost};
ghost use Rattle.jd_lines.specs.SourceLines.{reads_left};
ghost use Rattle.jd_lines.specs.Until.{IsReadUntil};

use crate::reading::SourceLines;
use crate::stops::LineStop;
use hp_io::Source;
use jd_readers::TakesLinesToEnd;

/// Takes the lines of a source up to the one that makes the reader whole, and gives how many they are,
/// or the number from 1 and the cause of the first bad line. `missing` is the cause where no line
/// makes it whole, at the line after the last. The lines that follow are still to be taken.
pub fn read_until<S: Source, R: TakesLinesToEnd>(
    lines: &mut SourceLines,
    source: &mut S,
    reader: &mut R,
    missing: R::Cause,
) -> Result<Result<u64, (u64, R::Cause)>, LineStop>
    requires { length lines.old.held + lines.old.within + 1 < 2 ^ 64 }
    ensures read { IfOk result (λ answer. IsReadUntil R.is_whole missing (R.with_line reader.old)
        (R.state reader.old) lines.old lines.new (S.left source.old) (S.left source.new) answer
        (R.state reader.new)) }
    ensures too_long { result ≡ Err LineStop.TooLong
        → Takes (lines.old.within + 1) (S.left source.old) (S.left source.new) }
    ensures stopped { OnErr result
        (TakesAtMost (lines.old.within + 1) (S.left source.old) (S.left source.new)) }
    ensures failed { result ≡ Err LineStop.Failed
        → Rose (S.faults source.old) (S.faults source.new) }
    ensures faults { S.faults source.old ≤ S.faults source.new }
    ensures calls { CallsAtMost (reads_left lines.old) (S.calls source.old) (S.calls source.new) }
    ensures reads { OnOk result (S.calls source.new + reads_left lines.new
        ≤ S.calls source.old + reads_left lines.old) }
{
    let mut count: u64 = 0;
    'taken: loop {
        let some = match lines.advance(source) {
            Ok(some) => some,
            Err(stop) => return Err(stop),
        };
        if !some {
            return Ok(Err((count + 1, missing)));
        }
        count += 1;
        match reader.take_line(lines.line()) {
            Ok(()) => {}
            Err(cause) => return Ok(Err((count, cause))),
        }
        if reader.is_whole() {
            return Ok(Ok(count));
        }
    }
}
