//! Texts that are read to their end: what takes a line is handed in, and the loop over the lines
//! stands here alone.
ghost use Rattle.std.specs.Prelude.{◌≡◌, ◌+◌, ◌<◌, ◌≤◌, ◌^◌, length, IfOk};
ghost use Rattle.jd_text.specs.Words.{word_lines};
ghost use Rattle.jd_text.specs.Readings.{Takes, read_lines};

use jd_text::next_line;

/// Takes the lines of a text one after another.
pub trait TakesLines {
    ghost use Rattle.std.specs.Prelude.{◌≡◌, ℕ, Bool, List, Result, OnOk};
    ghost use Rattle.jd_text.specs.Words.{words_of};
    ghost use Rattle.jd_text.specs.Readings.{Takes};

    /// Why a line is bad.
    type Cause: Copy;

    // What the lines that were taken said.
    ghost State: { Type 0 };

    ghost state: { Self → Self.State };

    // What they say with one line more, by its words.
    ghost with_line: { Self → Self.State → List (List ℕ) → Result Self.State Self.Cause };

    // Whether no more lines are read. Never, where a text is read to its end.
    ghost is_whole: { Self.State → Bool };

    /// Takes one more line, which has no line feed. What it leaves after an `Err` isn't said.
    fn take_line(&mut self, line: &[u8]) -> Result<(), Self::Cause>
        ensures takes { Takes (Self.with_line self.old (Self.state self.old) (words_of line.now))
            result (Self.state self.new) }
        ensures kept { OnOk result (Self.with_line self.new ≡ Self.with_line self.old) };
}

/// Takes all lines of a text, and gives how many there are, or the number from 1 and the cause of the
/// first bad line.
pub fn read_lines<R: TakesLines>(reader: &mut R, text: &[u8]) -> Result<u32, (u32, R::Cause)>
    requires { length text.now + 1 < 2 ^ 32 }
    ensures takes { Takes (read_lines (R.with_line reader.old) 1 (R.state reader.old)
        (word_lines text.now)) result (R.state reader.new) }
    ensures count { IfOk result (λ count. count ≡ length (word_lines text.now)) }
    ensures few { IfOk result (λ count. count ≤ length text.now) }
{
    let mut at = 0;
    let mut count = 0;
    'lines: while let Some((line, next)) = next_line(text, at) {
        count += 1;
        match reader.take_line(line) {
            Ok(()) => {}
            Err(cause) => return Err((count, cause)),
        }
        at = next;
    }
    Ok(count)
}
