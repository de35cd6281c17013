//! The lines that a source has left, taken as a certificate up to the first bad one. The check is
//! let go there, since a bad line goes before all that a check says.
ghost use Rattle.std.specs.Prelude.{◌+◌, ◌<◌, ◌^◌, length, IfOk};
ghost use Rattle.jd_problem.specs.Problems.{problem_of};
ghost use Rattle.jd_checking.specs.CertChecks.{IsRestChecked};
ghost use Rattle.jd_checking.specs.Finds.{Costs};

use crate::cert_lines::{finish, take_line};
use hp_io::{NoMemory, Source};
use jd_cert::{CertFault, CertReader};
use jd_check::{CheckRun, Checked};
use jd_lines::{LineStop, SourceLines};
use jd_problem::Problem;
use jd_rules::RuleSet;
use std::alloc::Global;

/// Checks the lines that are left as a certificate, up to the first bad one. After a bad line the
/// check is let go at once.
pub fn check_certificate<S: Source>(
    alloc: Global,
    problem: &Problem,
    rules: &RuleSet,
    lines: &mut SourceLines,
    source: &mut S,
) -> Result<Result<Checked, u32>, LineStop>
    requires { length lines.old.held + lines.old.within + 1 < 2 ^ 32 }
    ensures answer { IfOk result (IsRestChecked (problem_of problem.now) lines.old lines.new
        (S.left source.old) (S.left source.new)) }
    ensures costs { Costs lines.old lines.new (S.left source.old) (S.left source.new)
        (S.faults source.old) (S.faults source.new) (S.calls source.old) (S.calls source.new) result }
{
    let mut check = match CheckRun::new(alloc, problem, rules) {
        Ok(check) => check,
        Err(NoMemory) => return Err(LineStop::NoMemory),
    };
    let mut reader = CertReader::new(alloc);
    'taken: loop {
        let some = match lines.advance(source) {
            Ok(some) => some,
            Err(stop) => return Err(stop),
        };
        if !some {
            break;
        }
        match take_line(&mut reader, &mut check, lines.line()) {
            Ok(()) => {}
            Err(CertFault::Syntax { line }) => return Ok(Err(line)),
            Err(CertFault::NoMemory) => return Err(LineStop::NoMemory),
        }
    }
    match finish(&reader, check) {
        Ok(answer) => Ok(answer),
        Err(NoMemory) => Err(LineStop::NoMemory),
    }
}
