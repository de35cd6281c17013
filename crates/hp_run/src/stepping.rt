// A calculator copied, and R/S in parts: its beginning, each line, and the end of a run that is late. So a
// debugger can stop between two lines and still go by the rules of R/S.
ghost use Rattle.std.specs.Prelude.{◌≡◌, ◌≤◌, true, false};
ghost use Rattle.hp_model.specs.Run.{line_done};
ghost use Rattle.hp_core.specs.Machines.{machine_of};
ghost use Rattle.hp_run.specs.Seen.{calculator_of};
ghost use Rattle.hp_run.specs.Stepping.{is_ready, run_begun, line_run, run_cut};

use crate::calculators::Calculator;
use crate::lines::do_line;
use crate::pressed_operations::{begin_run, view_of_stop};
use hp_core::Stop;
use hp_keys::View;

impl Calculator {
    /// A calculator in the same state, with all of its memory. Takes no memory itself: it is 736 bytes on the
    /// stack.
    pub fn copy(&self) -> Calculator
        ensures { calculator_of result ≡ calculator_of self.now }
    {
        Calculator {
            machine: self.machine.copy(),
            prefix: self.prefix.copy(),
            program: self.program,
            view: self.view,
        }
    }

    /// Whether SST does a line and R/S runs the program: run mode is on, and no prefix is pending.
    pub fn is_ready(&self) -> bool
        ensures { result ≡ is_ready (calculator_of self.now) }
    {
        !self.program && !self.prefix.pending()
    }

    /// Presses R/S in run mode, but does no line of the run yet.
    pub fn begin_run(&mut self)
        requires { self.old.program ≡ false }
        ensures begun { calculator_of self.new ≡ run_begun (calculator_of self.old) }
        ensures line { 1 ≤ self.new.machine.control.line }
    {
        begin_run(&mut self.machine);
        self.view = View::Normal;
    }

    /// Does the next line of a run, as R/S and SST do it.
    pub fn run_line(&mut self) -> Stop
        requires mode { self.old.program ≡ false }
        requires line { 1 ≤ self.old.machine.control.line }
        ensures stop { result ≡ (line_done (machine_of self.old.machine)).stop }
        ensures run { calculator_of self.new ≡ line_run (calculator_of self.old) }
        ensures goes_on { result ≡ Stop.Go → 1 ≤ self.new.machine.control.line }
    {
        let stop = do_line(&mut self.machine);
        self.view = view_of_stop(stop);
        stop
    }

    /// Cuts a run off that has done as many lines as one key may do: the display shows Error 8.
    pub fn cut_run(&mut self)
        ensures { calculator_of self.new ≡ run_cut (calculator_of self.old) }
    {
        self.view = View::Error(8);
    }
}
