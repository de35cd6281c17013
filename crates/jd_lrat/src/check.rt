//! The check of a whole text in one pass: clauses, then lines, each read into the same lists. The
//! first bad line is kept while the grammar of the rest is judged.
ghost use Rattle.std.specs.Prelude.{◌≡◌, ◌+◌, ◌<◌, ◌^◌, [], false, suc, length, drop, None, IfOk, OnOk};
ghost use Rattle.jd_text.specs.Lines.{lines_of};
ghost use Rattle.jd_logic.specs.Verdict.{verdict_of};
ghost use Rattle.jd_lrat.specs.CnfTexts.{IsLineStart};
ghost use Rattle.jd_lrat.specs.LineTexts.{HasRanges, line_in};
ghost use Rattle.jd_lrat.specs.Checks.{IsStepped, progress_of, stepped, verdict_after, verdict_on};

use crate::checker::Checker;
use crate::dimacs::{Taken, take_cnf};
use crate::line_text::{Head, Lists};
use crate::numerals::is_skipped;
use crate::{CnfFault, LineFault, NoMemory, ProofText};
use jd_logic::{BadLine, Verdict};
use jd_text::next_line;
use std::alloc::Global;

/// How far the check of a proof has come: the clauses, the number of the next line, and the first
/// bad line. After a bad line no line is checked.
#[derive(Drop)]
struct Check {
    checker: Checker,
    count: u64,
    fault: Option<(u64, BadLine)>,
}

impl Check {
    /// Checks a line of the proof.
    fn step(&mut self, head: Head, lists: &Lists) -> Result<(), NoMemory>
        requires ranges { HasRanges head lists.now }
        requires unspent { self.old.checker.spent ≡ false }
        requires small { self.old.count + 1 < 2 ^ 64 }
        ensures progress { OnOk result (progress_of self.new ≡ stepped (progress_of self.old) (line_in head lists.now)) }
        ensures unspent { OnOk result (self.new.checker.spent ≡ false) }
    {
        let count = self.count;
        self.count += 1;
        if self.fault.is_some() {
            return Ok(());
        }
        match self.checker.take(head, lists) {
            Ok(()) => Ok(()),
            Err(LineFault::Bad(cause)) => {
                self.fault = Some((count, cause));
                Ok(())
            }
            Err(LineFault::NoMemory) => Err(NoMemory),
        }
    }

    /// Checks a line of the text, which may be a comment.
    fn step_text(&mut self, lists: &mut Lists, text: &[u8]) -> Result<(), ProofText>
        requires unspent { self.old.checker.spent ≡ false }
        requires small { self.old.count + 1 < 2 ^ 64 }
        ensures { IsStepped self.old text.now result self.new }
    {
        if is_skipped(text) {
            return Ok(());
        }
        let head = lists.read(text)?;
        self.step(head, lists)?;
        Ok(())
    }

    /// The verdict where no line is left.
    fn verdict(&self) -> Verdict
        ensures { result ≡ verdict_after (progress_of self.now) [] }
    {
        match self.fault {
            Some((line, cause)) => Verdict::Bad { line, cause },
            None => {
                if self.checker.refuted() {
                    Verdict::Refuted
                } else {
                    Verdict::NotRefuted
                }
            }
        }
    }
}

/// Checks the lines from a place on, before which stand so many.
fn check_lines(
    alloc: Global,
    checker: Checker,
    bytes: &[u8],
    from: usize,
    before: u32,
) -> Result<Verdict, NoMemory>
    requires unspent { checker.spent ≡ false }
    requires place { IsLineStart bytes.now from before }
    ensures { IfOk result (λ v. v ≡ verdict_on (record { state = checker.state; count = 1; fault = None }) (suc before) (lines_of (drop from bytes.now))) }
{
    let mut check = Check {
        checker,
        count: 1,
        fault: None,
    };
    let mut lists = Lists::new(alloc);
    let mut at = from;
    let mut line = u64::from(before) + 1;
    'lines: while let Some((text, next)) = next_line(bytes, at) {
        match check.step_text(&mut lists, text) {
            Ok(()) => {}
            Err(ProofText::Syntax) => return Ok(Verdict::NotText { line }),
            Err(ProofText::NoMemory) => return Err(NoMemory),
        }
        at = next;
        line += 1;
    }
    Ok(check.verdict())
}

/// Checks a text: clauses in DIMACS form, then the LRAT lines of a proof. The grammar of all lines
/// comes before the check of any.
pub fn check_text(alloc: Global, bytes: &[u8]) -> Result<Verdict, NoMemory>
    requires { length bytes.now + 1 < 2 ^ 32 }
    ensures { IfOk result (λ v. v ≡ verdict_of bytes.now) }
{
    match take_cnf(alloc, bytes) {
        Ok(Taken { clauses, at, lines }) => {
            let checker = Checker::of_clauses(alloc, clauses)?;
            check_lines(alloc, checker, bytes, at, lines)
        }
        Err(CnfFault::Syntax { line }) => Ok(Verdict::NotText {
            line: u64::from(line),
        }),
        Err(CnfFault::NoMemory) => Err(NoMemory),
    }
}
