//! Each problem judged, and certificates of it checked as lists. No command does the latter: they
//! check a certificate while they read it.
use anyhow::{Result, ensure};
use jd_cert::{Cert, read_cert};
use jd_judge::{Checked, Judged, check, judge};
use jd_problem::Problem;
use jd_rules::RuleSet;
use std::alloc::Global;

/// A certificate without a line, that the empty path is taken by no start.
const CUT_ALONE: &[u8] = b"certificate 1\ncut\nend\n";

/// A certificate that asks once, and refutes nothing.
const FORK_ALONE: &[u8] = b"certificate 1\nfork\nleaf\nend\nleaf\nend\n";

/// What the check of a certificate says.
fn checked(alloc: Global, problem: &Problem, rules: &RuleSet, cert: &Cert) -> Result<&'static str> {
    let answer = check(alloc, problem, rules, cert)?;
    Ok(match &answer {
        Checked::Equal(_) => "equal",
        Checked::Shape(_) => "shape",
        Checked::Bad { .. } => "bad",
        Checked::More { .. } => "more",
    })
}

/// What the check of a certificate's text says.
fn checked_text(
    alloc: Global,
    problem: &Problem,
    rules: &RuleSet,
    text: &[u8],
) -> Result<&'static str> {
    ensure!(text.len() < 1 << 28, "a certificate is too long");
    let cert = read_cert(alloc, text)?;
    checked(alloc, problem, rules, &cert)
}

/// What the judge says, or the check of its certificate where it says that the routines agree.
pub fn judged(alloc: Global, problem: &Problem, rules: &RuleSet) -> Result<&'static str> {
    let answer = judge(alloc, problem, rules)?;
    Ok(match &answer {
        Judged::Equal(_, cert) => checked(alloc, problem, rules, cert)?,
        Judged::Different(_) => "different",
        Judged::Unknown(_, _) => "unknown",
        Judged::TooManyPaths(_) => "too many paths",
    })
}

/// What the check says of a cut alone.
pub fn cut_alone(alloc: Global, problem: &Problem, rules: &RuleSet) -> Result<&'static str> {
    checked_text(alloc, problem, rules, CUT_ALONE)
}

/// What the check says of a fork alone.
pub fn fork_alone(alloc: Global, problem: &Problem, rules: &RuleSet) -> Result<&'static str> {
    checked_text(alloc, problem, rules, FORK_ALONE)
}
