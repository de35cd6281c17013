//! The lines of a leaf or a cut, checked one after another by the checker of proofs. The first bad
//! one is kept, and later lines are only counted: the tree is still looked at, since one that
//! doesn't cover goes before a bad line.
ghost use Rattle.std.specs.Prelude.{◌≡◌, ◌+◌, ◌<◌, ◌^◌, ◌∷◌, List, IfOk, OnOk};
ghost use Rattle.jd_logic.specs.declared.Line.{Line};
ghost use Rattle.jd_logic.specs.Checking.{begun};
ghost use Rattle.jd_books.specs.Checks.{log_end_from};
ghost use Rattle.jd_check.specs.Progress.{log_after};

use hp_io::NoMemory;
use jd_logic::{BadLine, Line};
use jd_lrat::{Checker, Clauses, LineFault};
use std::alloc::Global;

/// How far the check of a leaf's or a cut's lines has come: the number of the next line, and the
/// first bad one. After a bad line no line is checked.
#[derive(Drop)]
pub struct LogCheck {
    pub checker: Checker,
    pub count: u64,
    pub bad: Option<(u64, BadLine)>,
}

impl LogCheck {
    /// The check of lines from these clauses.
    pub fn new(alloc: Global, clauses: &Clauses) -> Result<LogCheck, NoMemory>
        ensures start { IfOk result (λ c. (log : List Line) → log_after c log ≡ log_end_from (begun clauses.now) 1 log) }
        ensures count { IfOk result (λ c. c.count ≡ 1) }
    {
        Ok(LogCheck {
            checker: Checker::new(alloc, clauses)?,
            count: 1,
            bad: None,
        })
    }

    /// Checks the next line, if none was bad.
    pub fn step(&mut self, line: &Line) -> Result<(), NoMemory>
        ensures stepped { OnOk result (self.old.count + 1 < 2 ^ 64 → (rest : List Line) → log_after self.old (line.now ∷ rest) ≡ log_after self.new rest) }
        ensures count { OnOk result (self.old.count + 1 < 2 ^ 64 → self.new.count ≡ self.old.count + 1) }
    {
        let count = self.count;
        self.count = count.saturating_add(1);
        if self.bad.is_some() {
            return Ok(());
        }
        match self.checker.line(line) {
            Ok(()) => Ok(()),
            Err(LineFault::Bad(cause)) => {
                self.bad = Some((count, cause));
                Ok(())
            }
            Err(LineFault::NoMemory) => Err(NoMemory),
        }
    }
}
