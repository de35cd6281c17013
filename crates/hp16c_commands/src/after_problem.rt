//! The number of a line of what follows a problem, counted over the whole text, for the commands
//! that read more than a problem.
ghost use Rattle.std.specs.Prelude.{◌≡◌, ◌+◌, ◌<◌, ◌≤◌, ◌^◌, length, take};
ghost use Rattle.jd_text.specs.Lines.{lines_of};

use jd_text::count_lines;

/// The number in a whole text of a line of what follows its first bytes.
pub fn line_after(bytes: &[u8], count: usize, line: u32) -> u64
    requires within { count ≤ length bytes.now }
    requires short { length bytes.now + 1 < 2 ^ 32 }
    ensures { result ≡ length (lines_of (take count bytes.now)) + line }
{
    count_lines(&bytes[..count]) as u64 + u64::from(line)
}
