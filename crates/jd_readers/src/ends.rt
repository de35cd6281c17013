//! Texts that go on after what is read: the reader says when it is whole, and the number of bytes
//! up to there is answered.
ghost use Rattle.std.specs.Prelude.{◌≡◌, ◌+◌, ◌<◌, ◌^◌, length, Err, IfOk, IfErr};
ghost use Rattle.jd_text.specs.Words.{word_lines};
ghost use Rattle.jd_text.specs.Readings.{read_until};
ghost use Rattle.jd_readers.specs.Ends.{IsReadTo};

use crate::lines::TakesLines;
use jd_text::next_line;

/// Takes lines up to the one that makes them whole.
pub trait TakesLinesToEnd: TakesLines {
    ghost use Rattle.std.specs.Prelude.{◌≡◌};

    /// Whether the lines that were taken are whole.
    fn is_whole(&self) -> bool
        ensures { result ≡ Self.is_whole (Self.state self.now) };
}

/// Takes the lines of a text up to the one that makes them whole, and gives the number of bytes up to
/// and with that line, or the number from 1 and the cause of the first bad line. `missing` is the
/// cause where no line makes them whole, at the line after the last.
pub fn read_until<R: TakesLinesToEnd>(
    reader: &mut R,
    text: &[u8],
    missing: R::Cause,
) -> Result<usize, (u32, R::Cause)>
    requires { length text.now + 1 < 2 ^ 32 }
    ensures read { IfOk result (λ end. IsReadTo R.is_whole missing (R.with_line reader.old)
        (R.state reader.old) text.now (R.state reader.new) end) }
    ensures fault { IfErr result (λ fault. read_until R.is_whole missing (R.with_line reader.old) 1
        (R.state reader.old) (word_lines text.now) ≡ Err fault) }
{
    let mut at = 0;
    let mut count = 0;
    'lines: while let Some((line, next)) = next_line(text, at) {
        count += 1;
        match reader.take_line(line) {
            Ok(()) => {}
            Err(cause) => return Err((count, cause)),
        }
        if reader.is_whole() {
            return Ok(next);
        }
        at = next;
    }
    Err((count + 1, missing))
}
