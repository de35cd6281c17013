//! The commands of a script, each alone on its line. They stand apart from its keys, which a key file has
//! too.

/// What a line of a script asks of the debugger, where it isn't a line of keys. Numbers of lines are 1 to 609.
#[derive(Clone, Copy, Debug, PartialEq, Eq)]
pub enum Command {
    /// `:break N` sets a breakpoint: runs stop before line N.
    Break(u16),
    /// `:clear N` takes it away.
    Clear(u16),
    /// `:step` does one line, as SST does in run mode.
    Step,
    /// `:back` goes back to the state that was recorded last.
    Back,
    /// `:go` runs the program, as R/S does in run mode, to a breakpoint or an end.
    Go,
}
