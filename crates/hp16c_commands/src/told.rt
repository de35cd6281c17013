//! An answer before it is written: what a command tells, and how it ends. A start in it is one that
//! its problem allows, which the writer of starts relies on.
ghost use Rattle.std.specs.Prelude.{◌≡◌, true};
ghost use Rattle.hp16c_commands.specs.Told.{is_writable};

use crate::outcomes::Outcome;
use jd_cert::Cert;
use jd_judge::Book;
use jd_problem::{Problem, Start};
use jd_short::Refusals;

/// What stands before a certificate or a start.
#[derive(Clone, Copy, Debug, PartialEq, Eq)]
pub enum Heading {
    /// The problem.
    Problem,
    /// Nothing.
    Empty,
}

/// What a command tells.
#[derive(Drop)]
pub enum Told {
    /// How it ends, and a text.
    Text {
        outcome: Outcome,
        text: String,
    },
    /// What is asked of a problem holds from each start that it allows: the certificate, with its
    /// leaves, after a heading.
    Certificate {
        heading: Heading,
        problem: Problem,
        book: Book,
        cert: Cert,
    },
    /// It doesn't hold from a start: the start, after a heading.
    Start {
        heading: Heading,
        problem: Problem,
        start: Start,
    },
    /// A problem's second routine came from its first by replacements, and agrees with it: the problem and
    /// the certificate, with its leaves, and why no further piece was replaced.
    Short {
        problem: Problem,
        book: Book,
        cert: Cert,
        refusals: Refusals,
    },
}

/// How a command ends, and what it writes. A start is told only where its problem allows it.
#[derive(Drop)]
pub struct Answer {
    pub told: Told,
    pub ghost writable: { is_writable told ≡ true },
}
