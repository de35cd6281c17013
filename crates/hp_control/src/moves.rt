// How operations end in control.
ghost use Rattle.std.specs.Prelude.{◌≡◌, ◌+◌, ◌≤◌, length, None};
ghost use Rattle.hp_model.specs.ControlStep.{skipping};
ghost use Rattle.hp_control.specs.Controls.{control_of};

use crate::control::Control;
use crate::program::Program;
use hp_model::{End, Stop};

/// Digit entry is over and the window is 0, as after each operation that isn't a digit.
pub(crate) fn finish(control: &mut Control, lift: bool) -> Stop
    ensures control { control.new ≡ record control.old { entry = None; lift = lift; window = 0 } }
    ensures stop { result ≡ Stop.Go }
{
    control.entry = None;
    control.lift = lift;
    control.window = 0;
    Stop::Go
}

/// As `finish`, where stack lift is left as it was.
pub(crate) fn finish_as_it_was(control: &mut Control) -> Stop
    ensures control { control.new ≡ record control.old { entry = None; window = 0 } }
    ensures stop { result ≡ Stop.Go }
{
    control.entry = None;
    control.window = 0;
    Stop::Go
}

/// Digit entry is over, and all else stays, as after each operation that errs.
pub fn fail(control: &mut Control, error: u8) -> Stop
    ensures control { control.new ≡ record control.old { entry = None } }
    ensures stop { result ≡ Stop.Ended (End.Error error) }
{
    control.entry = None;
    Stop::Ended(End::Error(error))
}

/// The next line is skipped where that is said, but for the RTN past the last line.
pub(crate) fn skip_if<P: Program>(control: &mut Control, program: &P, skips: bool) -> Stop
    requires { control.old.line ≤ length (P.listing program.now).codes + 1 }
    ensures control { control_of control.new (P.listing program.now)
        ≡ skipping skips (control_of control.old (P.listing program.now)) }
    ensures same { control.new ≡ record control.old { line = control.new.line } }
    ensures bound { control.new.line ≤ length (P.listing program.now).codes + 1 }
    ensures stop { result ≡ Stop.Go }
{
    if skips {
        let last = program.lines() + 1;
        control.line = (control.line + 1).min(last);
    }
    Stop::Go
}
