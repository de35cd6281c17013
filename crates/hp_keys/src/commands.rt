// What keys ask for, once a command's keys are all pressed: hp_run does it, in run mode or in program
// mode.
use hp_model::Base;
use hp_ops::Op;

/// The shift that is pending: none, f or g.
#[derive(Clone, Copy, Debug, PartialEq, Eq)]
pub enum Shift {
    Plain,
    F,
    G,
}

/// What a key, or several with their prefix, asks for. `ProgramRun` switches between run mode and program
/// mode; `Float` stands for the keys of the FLOAT mode, which this machine has not.
#[derive(Clone, Copy, Debug, PartialEq, Eq)]
pub enum Command {
    Do(Op),
    Show(Base),
    Status,
    Mem,
    ClearPrefix,
    ClearProgram,
    ProgramRun,
    Sst,
    Bst,
    Bsp,
    GotoLine(u16),
    Float,
    On,
}

/// What a key gives: it waits for more keys, it is dropped with its prefix, or a command is complete.
#[derive(Clone, Copy, Debug, PartialEq, Eq)]
pub enum Pressed {
    More,
    Do(Command),
    Dropped,
}
