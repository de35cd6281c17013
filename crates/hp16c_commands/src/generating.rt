//! The command `gen`: makes the problem of a number and judges it. That no other judgement can come
//! than Equal is a theorem about these problems, and the code relies on it.
ghost use Rattle.std.specs.Prelude.{◌≡◌, ◌≢◌, ◌≤◌, true};
ghost use Rattle.hp_io.specs.Causes.{Rose};
ghost use Rattle.jd_generated.specs.Generated.{generated, summary};
ghost use Rattle.jd_problem.specs.Problems.{problem_of};
ghost use Rattle.jd_model.specs.Seen.{agree};
ghost use Rattle.jd_judge.specs.Judging.{IsEqual, IsJudged};
ghost use Rattle.hp16c_commands.specs.Generating.{GenerateDid};
ghost use Rattle.hp16c_commands.specs.WholeInputs.{is_fault};

use crate::outcomes::{Kept, Outcome, Status};
use arrayvec::ArrayString;
use hp_io::{Failed, Sink, write_whole};
use itoa::Buffer;
use jd_cert::Cert;
use jd_generator::generate;
use jd_judge::{Book, Judged, judge};
use jd_problem::Problem;
use jd_rules::RuleSet;
use std::alloc::Global;

/// The line that tells of a number's routines: how many lines each has, and that they are equal.
fn summary(n: u32, problem: &Problem) -> ArrayString<64>
    requires { problem_of problem.now ≡ generated n }
    ensures { result.bytes ≡ summary n }
{
    let mut text = ArrayString::new();
    text.push_str("gen ");
    text.push_str(Buffer::new().format(n));
    text.push_str(" lines ");
    text.push_str(Buffer::new().format(problem.first.codes().len() as u8));
    text.push_str(" ");
    text.push_str(Buffer::new().format(problem.second.codes().len() as u8));
    text.push_str(" equal\n");
    text
}

/// The leaves and the certificate of a number's problem. There can be no other judgement: the routines
/// agree from every allowed start, they take two paths, and the budget suffices.
fn certificate(n: u32, judged: Judged) -> (Book, Cert)
    requires { IsJudged (generated n) judged }
    ensures { IsEqual (generated n) (agree (generated n)) result.0 result.1 }
{
    match judged {
        Judged::Equal(book, cert) => (book, cert),
        Judged::Different(_) => unreachable!(),
        Judged::Unknown(..) => unreachable!(),
        Judged::TooManyPaths(_) => unreachable!(),
    }
}

/// Makes the problem of a number, judges it, and writes how many lines its routines have. It takes
/// memory for the judge.
pub fn generate_and_judge<K: Sink>(alloc: Global, n: u32, sink: &mut K, rules: &RuleSet) -> Outcome
    ensures did { GenerateDid n result (K.written sink.old) (K.written sink.new) }
    ensures no_usage { result.status ≢ Status.Usage }
    ensures keeps { is_fault result.status ≡ true → result.kept ≡ Kept.Nothing }
    ensures write_cause { result.status ≡ Status.WriteFault
        → Rose (K.faults sink.old) (K.faults sink.new) }
    ensures write_faults { K.faults sink.old ≤ K.faults sink.new }
{
    let problem = generate(n);
    let Ok(judged) = judge(alloc, &problem, rules) else {
        return Outcome::of(Status::NoMemory);
    };
    let (book, cert) = certificate(n, judged);
    match write_whole(sink, summary(n, &problem).as_str().as_bytes()) {
        Ok(()) => Outcome {
            status: Status::Done,
            kept: Kept::Judged(book, cert),
        },
        Err(Failed) => Outcome::of(Status::WriteFault),
    }
}
