//! How a run under the debugger stops. It says more than the end of a pressed R/S, which knows no
//! breakpoints and shows a late run as Error 8 alone.
use hp_model::End;

/// How a run under the debugger stopped.
#[derive(Clone, Copy, Debug, PartialEq, Eq)]
pub enum Stopped {
    /// It didn't run: program mode is on, or a prefix is pending. Nothing changed.
    NotRun,
    /// It came to this line, which has a breakpoint and isn't done yet. The line after the last, where an
    /// RTN stands, may have one too.
    Break(u16),
    /// It ended by itself.
    Ended(End),
    /// 100,000 lines were done without an end and without coming to a breakpoint. The display shows Error 8.
    Late,
}
