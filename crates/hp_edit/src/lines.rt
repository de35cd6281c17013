// The lines of the program.
ghost use Rattle.std.specs.Prelude.{◌≡◌, ◌+◌, ◌-◌, ◌<◌, ◌==◌, ◌↔◌, length, nat_lt, IsNone, IfSome, if◌then◌else◌};

use hp_nibbles::Memory;

/// The line after one, from the last to line 0.
pub fn next(memory: &Memory, line: u16) -> u16
    ensures { result ≡ (if nat_lt line (length memory.now.program) then line + 1 else 0) }
{
    if line < memory.lines() { line + 1 } else { 0 }
}

/// The line before one, from line 0 to the last.
pub fn before(memory: &Memory, line: u16) -> u16
    ensures { result ≡ (if line == 0 then length memory.now.program else line - 1) }
{
    if line == 0 { memory.lines() } else { line - 1 }
}

/// The line of a number, or None where the program has not so many lines. Line 0 is there.
pub fn goto_line(memory: &Memory, number: u16) -> Option<u16>
    ensures past { IsNone result ↔ length memory.now.program < number }
    ensures line { IfSome result (λ line. line ≡ number) }
{
    if number <= memory.lines() {
        Some(number)
    } else {
        None
    }
}
