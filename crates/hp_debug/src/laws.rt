//! Laws of the debugger's definitions, which follow for whole lists of calls. Each function's contract is a
//! law, so that the gate proves it; the functions do nothing.
ghost use Rattle.hp_debug.specs.Laws.{StepsBackRestore, RunsAsPressed};
ghost use Rattle.hp_debug.specs.WorkedScripts.{WorkedScripts};

/// As many steps back as states were recorded restore the whole state of the moment before them.
pub fn steps_back_restore()
    ensures { StepsBackRestore }
{}

/// A run without breakpoints leaves the calculator as R/S does.
pub fn runs_as_pressed()
    ensures { RunsAsPressed }
{}

/// The definitions print what the worked scripts are said to print.
pub fn worked_scripts()
    ensures { WorkedScripts }
{}
