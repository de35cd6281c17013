//! The debugger: a calculator, the states that were recorded before its present one, and breakpoints. A key
//! is hp_run's `press`, and a run goes line by line through hp_run's `run_line`, so that no rule of the
//! calculator stands here.
ghost use Rattle.std.specs.Prelude.{◌≡◌, ◌≤◌, true, false, IfOk, if◌then◌else◌};
ghost use Rattle.hp_model.specs.State.{memory_bytes};
ghost use Rattle.hp_model.specs.Run.{line_done};
ghost use Rattle.hp_model.specs.Press.{new_calculator};
ghost use Rattle.hp_run.specs.Seen.{calculator_of};
ghost use Rattle.hp_run.specs.Stepping.{is_ready};
ghost use Rattle.hp_debug.specs.Debuggers.{new_debugger, pressed, stepped, run_result, run_to_stop, run_lines, next_line_done, has_history, stepped_back, with_breakpoint, present_recorded, state_recorded, at_breakpoint};

use crate::history::record_state;
use crate::stops::Stopped;
use hp_core::Stop;
use hp_io::NoMemory;
use hp_keys::Key;
use hp_model::Extent;
use hp_run::{Calculator, LINES_PER_KEY, press};
use std::alloc::Global;
use std::collections::VecDeque;
use std::marker::Model;

/// Numbers of lines are below this: 0, and 1 to the bytes of the larger memory, 609.
const LINE_NUMBERS: usize = hp_model::LARGE_BYTES + 1;

/// A calculator with its earlier states, to which it can go back, and with breakpoints, before which runs
/// stop. A recorded state is a whole calculator, 736 bytes. `new` takes the memory for all of them; no later
/// call takes any.
#[derive(Drop)]
pub struct Debugger {
    calculator: Calculator,
    history: VecDeque<Calculator>,
    depth: u16,
    breakpoints: [bool; LINE_NUMBERS],
}

impl Model for Debugger {
    ghost use Rattle.hp_debug.specs.Debuggers.{Debugger as DebuggerState};

    ghost Value = { DebuggerState };

    ghost use Rattle.hp_debug.specs.Fields.{debugger_of, HasRoom};

    ghost view = { debugger_of };

    ghost invariant = { HasRoom };
}

impl Debugger {
    /// A debugger of a calculator, with no breakpoints, that records at most `depth` states, 736 bytes each.
    /// Where there is no memory for them the calculator is dropped.
    pub fn new(alloc: Global, calculator: Calculator, depth: u16) -> Result<Debugger, NoMemory>
        requires depth { 1 ≤ depth }
        requires most { depth ≤ 1000 }
        ensures { IfOk result (λ debugger. debugger ≡ new_debugger (calculator_of calculator) depth) }
    {
        let history = match VecDeque::with_capacity(alloc, usize::from(depth)) {
            Ok(history) => history,
            Err(_) => return Err(NoMemory),
        };
        Ok(Debugger {
            calculator,
            history,
            depth,
            breakpoints: [false; LINE_NUMBERS],
        })
    }

    /// Begins anew with a new calculator of this size, no history and no breakpoints.
    pub(crate) fn restart(&mut self, extent: Extent)
        ensures { self.new ≡ new_debugger (new_calculator (memory_bytes extent)) self.old.depth }
    {
        self.calculator = Calculator::new(extent);
        self.history.clear();
        self.breakpoints = [false; LINE_NUMBERS];
    }

    /// The calculator in its present state.
    pub fn calculator(&self) -> &Calculator
        ensures { calculator_of result.now ≡ self.now.present }
    {
        &self.calculator
    }

    /// Records the present state.
    fn record(&mut self)
        ensures { self.new ≡ present_recorded self.old }
    {
        record_state(&mut self.history, self.depth, self.calculator.copy());
    }

    /// Records the state and presses a key. A run that the key begins passes over breakpoints, and counts
    /// as one step back.
    pub fn press(&mut self, key: Key)
        ensures { self.new ≡ pressed key self.old }
    {
        self.record();
        press(&mut self.calculator, key);
    }

    /// Records the state and does one line, as SST does in run mode. False where the calculator is in
    /// program mode or a prefix is pending: then nothing changes.
    pub fn step(&mut self) -> bool
        ensures answer { result ≡ is_ready self.old.present }
        ensures state { self.new ≡ stepped self.old }
    {
        if !self.calculator.is_ready() {
            return false;
        }
        self.press(Key::SingleStep);
        true
    }

    /// Makes the state that was recorded last the present one, and takes it out of the history. False
    /// where the history is empty: then nothing changes. Breakpoints stay.
    pub fn back(&mut self) -> bool
        ensures answer { result ≡ has_history self.old }
        ensures state { self.new ≡ stepped_back self.old }
    {
        match self.history.pop_back() {
            None => false,
            Some(state) => {
                self.calculator = state;
                true
            }
        }
    }

    /// Sets a breakpoint: runs of `go` stop before this line, 1 to 609, which the program need not have yet.
    pub fn set_break(&mut self, line: u16)
        requires first { 1 ≤ line }
        requires last { line ≤ 609 }
        ensures { self.new ≡ with_breakpoint line true self.old }
    {
        self.breakpoints[usize::from(line)] = true;
    }

    /// Takes a line's breakpoint away, if it has one.
    pub fn clear_break(&mut self, line: u16)
        requires first { 1 ≤ line }
        requires last { line ≤ 609 }
        ensures { self.new ≡ with_breakpoint line false self.old }
    {
        self.breakpoints[usize::from(line)] = false;
    }

    /// Records a state and does the next line of a run.
    fn do_line(&mut self, before: Calculator) -> Stop
        requires mode { self.old.present.programming ≡ false }
        requires line { 1 ≤ self.old.present.machine.control.line }
        ensures stop { result ≡ (line_done self.old.present.machine).stop }
        ensures state { self.new ≡ next_line_done (state_recorded (calculator_of before) self.old) }
        ensures mode { self.new.present.programming ≡ false }
        ensures goes_on { result ≡ Stop.Go → 1 ≤ self.new.present.machine.control.line }
    {
        record_state(&mut self.history, self.depth, before);
        self.calculator.run_line()
    }

    /// The line to be done next, where it has a breakpoint.
    fn line_with_breakpoint(&self) -> Option<u16>
        ensures { result ≡ (if at_breakpoint self.now then Some self.now.present.machine.control.line else None) }
    {
        let line = self.calculator.machine.control.line;
        match self.breakpoints.get(usize::from(line)) {
            Some(true) => Some(line),
            _ => None,
        }
    }

    /// Does at most so many lines, and records a state before each: first the given one, then the present.
    fn run_lines(&mut self, bound: u32, before: Calculator) -> Stopped
        requires mode { self.old.present.programming ≡ false }
        requires line { 1 ≤ self.old.present.machine.control.line }
        ensures { run_result result self.new ≡ run_lines bound (calculator_of before) self.old }
    {
        let mut before = before;
        for _ in 0..bound {
            match self.do_line(before) {
                Stop::Ended(end) => return Stopped::Ended(end),
                Stop::Go => {}
            }
            match self.line_with_breakpoint() {
                Some(line) => return Stopped::Break(line),
                None => {}
            }
            before = self.calculator.copy();
        }
        self.calculator.cut_run();
        Stopped::Late
    }

    /// Runs as R/S does in run mode, and records the state before each line: before the first as it was
    /// when this was called. The run also stops before a line with a breakpoint, but not before its first, and
    /// with Error 8 after 100,000 lines.
    pub fn go(&mut self) -> Stopped
        ensures { run_result result self.new ≡ run_to_stop self.old }
    {
        if !self.calculator.is_ready() {
            return Stopped::NotRun;
        }
        let before = self.calculator.copy();
        self.calculator.begin_run();
        self.run_lines(LINES_PER_KEY, before)
    }
}
