//! How answers are made and written. A problem, a certificate and a start aren't made into texts first:
//! they are written piece by piece, so that a large certificate isn't held twice.
ghost use Rattle.std.specs.Prelude.{◌≡◌, ℕ, true, take, IfOk, OnOk};
ghost use Rattle.std.specs.String.{string_bytes};
ghost use Rattle.std.specs.Io.KnownBytes.{Appends};
ghost use Rattle.hp_io.specs.Causes.{HasCause};
ghost use Rattle.jd_model.specs.Problems.{allows};
ghost use Rattle.jd_problem.specs.Problems.{problem_of};
ghost use Rattle.jd_start.specs.Starts.{start_data};
ghost use Rattle.hp16c_commands.specs.Answers.{told, bad_line, too_long};
ghost use Rattle.jd_judge.specs.declared.outcomes.Judged.TheVariants.{Equal, Different};
ghost use Rattle.hp16c_commands.specs.Told.{heading_text};
ghost use Rattle.hp16c_commands.specs.Judging.{judgement};
ghost use Rattle.hp16c_commands.specs.Shortening.{replaced};
ghost use Rattle.hp16c_commands.specs.Answered.{answer_of};

use crate::outcomes::{Kept, Outcome, Status};
use crate::refusals::bad_line;
use crate::told::{Answer, Heading, Told};
use hp_io::{Failed, Sink, write_whole};
use jd_cert::{Cert, write_cert};
use jd_judge::Book;
use jd_problem::{Problem, Start, write_problem, write_start};
use jd_short::Refusals;
use std::alloc::{AllocError, Global};

/// Writes what stands before a certificate or a start.
fn write_heading<K: Sink>(heading: Heading, problem: &Problem, sink: &mut K) -> Result<(), Failed>
    ensures whole { OnOk result (Appends (K.written sink.old) (K.written sink.new)
        (heading_text heading (problem_of problem.now))) }
    ensures part { (n : ℕ) × Appends (K.written sink.old) (K.written sink.new)
        (take n (heading_text heading (problem_of problem.now))) }
    ensures cause { HasCause (K.faults sink.old) (K.faults sink.new) result }
{
    match heading {
        Heading::Problem => write_problem(problem, sink),
        Heading::Empty => write_whole(sink, b""),
    }
}

impl Answer {
    /// A status and a text, with which nothing is kept.
    pub fn of(alloc: Global, status: Status, text: &str) -> Result<Answer, AllocError>
        ensures { IfOk result (λ answer. answer_of answer ≡ told status text.now) }
    {
        Ok(Answer::with(Outcome::of(status), String::from_str(alloc, text)?))
    }

    /// An outcome and a text. Takes no memory.
    pub fn with(outcome: Outcome, text: String) -> Answer
        ensures { answer_of result ≡ record { outcome = outcome; text = string_bytes text } }
    {
        Answer {
            told: Told::Text { outcome, text },
        }
    }

    /// That what was asked of a problem holds from each allowed start.
    pub fn certificate(heading: Heading, problem: Problem, book: Book, cert: Cert) -> Answer
        ensures { answer_of result ≡ judgement (heading_text heading (problem_of problem)) (Equal book cert) }
    {
        Answer {
            told: Told::Certificate {
                heading,
                problem,
                book,
                cert,
            },
        }
    }

    /// That a problem's second routine came from its first by replacements, and agrees with it.
    pub fn short(problem: Problem, book: Book, cert: Cert, refusals: Refusals) -> Answer
        ensures { answer_of result ≡ replaced (problem_of problem) book cert refusals }
    {
        Answer {
            told: Told::Short {
                problem,
                book,
                cert,
                refusals,
            },
        }
    }

    /// That it doesn't hold from a start.
    pub fn start(heading: Heading, problem: Problem, start: Start) -> Answer
        requires { allows (problem_of problem) (start_data start) ≡ true }
        ensures { answer_of result ≡ judgement (heading_text heading (problem_of problem)) (Different start) }
    {
        Answer {
            told: Told::Start {
                heading,
                problem,
                start,
            },
        }
    }

    /// The answer where a line of the input is bad, counted from 1.
    pub fn bad_line(alloc: Global, line: u64) -> Result<Answer, AllocError>
        ensures { IfOk result (λ answer. answer_of answer ≡ bad_line line) }
    {
        Answer::of(alloc, Status::BadInput, bad_line(line).as_str())
    }

    /// The answer where the input has more bytes than are taken.
    pub fn too_long(alloc: Global) -> Result<Answer, AllocError>
        ensures { IfOk result (λ answer. answer_of answer ≡ too_long) }
    {
        Answer::of(alloc, Status::Limit, "limit\n")
    }

    /// Writes the text.
    pub fn write<K: Sink>(&self, sink: &mut K) -> Result<(), Failed>
        ensures whole { OnOk result (Appends (K.written sink.old) (K.written sink.new) (answer_of self.now).text) }
        ensures part { (n : ℕ) × Appends (K.written sink.old) (K.written sink.new) (take n (answer_of self.now).text) }
        ensures cause { HasCause (K.faults sink.old) (K.faults sink.new) result }
    {
        match &self.told {
            Told::Text { text, .. } => write_whole(sink, text.as_bytes()),
            Told::Certificate {
                heading,
                problem,
                cert,
                ..
            } => {
                write_heading(*heading, problem, sink)?;
                write_cert(cert, sink)
            }
            Told::Start {
                heading,
                problem,
                start,
            } => {
                write_heading(*heading, problem, sink)?;
                write_start(problem, start, sink)
            }
            Told::Short { problem, cert, .. } => {
                write_problem(problem, sink)?;
                write_cert(cert, sink)
            }
        }
    }

    /// How the command ends.
    pub fn outcome(self) -> Outcome
        ensures { result ≡ (answer_of self).outcome }
    {
        let Answer { told } = self;
        match told {
            Told::Text { outcome, .. } => outcome,
            Told::Certificate { book, cert, .. } => Outcome {
                status: Status::Done,
                kept: Kept::Judged(book, cert),
            },
            Told::Short {
                problem,
                book,
                cert,
                refusals,
            } => Outcome {
                status: Status::Done,
                kept: Kept::Short {
                    routine: problem.second,
                    book,
                    cert,
                    refusals,
                },
            },
            Told::Start { start, .. } => Outcome {
                status: Status::Different,
                kept: Kept::Start(start),
            },
        }
    }
}
