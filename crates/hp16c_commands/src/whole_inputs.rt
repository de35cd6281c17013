//! The commands that read their whole input before they answer: they have one form, a limit, the
//! answer that is due to some bytes, and a function that finds it. What a fault gives is decided
//! here, and the answer is written here, once for all of them but `debug`, which writes its answer line
//! by line.
ghost use Rattle.std.specs.Prelude.{◌≡◌, ◌≢◌, true, Err, ◌+◌, ◌≤◌, length, IfSome, IfOk};
ghost use Rattle.hp_io.specs.Causes.{CallsAtMost, Rose};
ghost use Rattle.hp16c_commands.specs.WholeInputs.{limit_of, Answers, IsAnswerTo, IsAnswer};
ghost use Rattle.hp16c_commands.specs.WholeInputs.{WasGiven, WasCutShort, WasTold, IfGiven, can_end, is_answer_of, is_fault};
ghost use Rattle.hp16c_commands.specs.Answered.{answer_of};

use crate::checking::check_certificate;
use crate::debugging::debug_input;
use crate::judging::judge_problem;
use crate::lrat::check_proof;
use crate::outcomes::{Kept, Outcome, Status};
use crate::replays::replay_start;
use crate::routines::{assemble_routine, list_routine};
use crate::shortening::shorten_problem;
use crate::specifying::judge_spec;
use crate::told::Answer;
use hp_io::{Bytes, Failed, ReadStop, Sink, Source, Taken, read_limited};
use jd_rules::RuleSet;
use std::alloc::{AllocError, Global};

/// The commands that read their whole input, within a limit, before they answer.
#[derive(Clone, Copy, Debug, PartialEq, Eq)]
pub enum WholeInput {
    /// `lrat`: checks an LRAT proof after its clauses, and writes what the check says.
    Lrat,
    /// `asm`: reads a routine as assembly, and writes its codes.
    Assemble,
    /// `list`: reads a routine as codes, and writes its assembly.
    List,
    /// `replay`: runs both routines of a problem from a start, and writes what is seen of them.
    Replay,
    /// `judge`: reads a problem, and writes a certificate that its routines agree, a start from which
    /// they don't, or the limit that was met.
    Judge,
    /// `check`: reads a problem and a certificate line by line, and writes what the check says. It
    /// keeps none of what it read.
    Check,
    /// `debug`: reads a script of keys and commands, and writes what the debugger answers line by line.
    Debug,
    /// `spec`: reads what a routine is to give, as formulas over its start, and writes a certificate that
    /// it does, a start from which it doesn't, or the limit that was met.
    Spec,
    /// `short`: reads a problem, replaces pieces of its first routine as long as the judge shows that it
    /// agrees with the source, and writes the problem of the two with the certificate; or what `judge`
    /// writes of the source against itself.
    Short,
}

impl WholeInput {
    /// The greatest input, in bytes.
    pub fn limit(self) -> u64
        ensures { result ≡ limit_of self }
    {
        match self {
            WholeInput::Lrat => 268_435_456,
            WholeInput::Assemble
            | WholeInput::List
            | WholeInput::Judge
            | WholeInput::Spec
            | WholeInput::Short => 65_536,
            WholeInput::Replay => 131_072,
            WholeInput::Check => 268_500_992,
            WholeInput::Debug => 1_000_000,
        }
    }
}

// An answer to bytes that were read whole.
fn find_answer(
    alloc: Global,
    command: WholeInput,
    bytes: &Bytes,
    rules: &RuleSet,
) -> Result<Answer, AllocError>
    requires within { length bytes.now ≤ limit_of command }
    requires whole { command ≢ WholeInput.Check }
    requires no_script { command ≢ WholeInput.Debug }
    ensures { IfOk result (λ answer. Answers command bytes.now (answer_of answer)) }
{
    match command {
        WholeInput::Lrat => check_proof(alloc, bytes),
        WholeInput::Assemble => assemble_routine(alloc, bytes),
        WholeInput::List => list_routine(alloc, bytes),
        WholeInput::Replay => replay_start(alloc, bytes),
        WholeInput::Judge => judge_problem(alloc, bytes, rules),
        WholeInput::Spec => judge_spec(alloc, bytes, rules),
        WholeInput::Short => shorten_problem(alloc, bytes, rules),
        WholeInput::Check | WholeInput::Debug => unreachable!(),
    }
}

// Reads a source, and finds an answer to its bytes.
fn find_in_source<S: Source>(
    alloc: Global,
    command: WholeInput,
    source: &mut S,
    rules: &RuleSet,
) -> Result<Answer, ReadStop>
    requires no_script { command ≢ WholeInput.Debug }
    ensures answer { IfOk result (λ answer. IsAnswer command
        (S.left source.old) (S.left source.new) (answer_of answer)) }
    ensures failed { result ≡ Err ReadStop.Failed
        → Rose (S.faults source.old) (S.faults source.new) }
    ensures faults { S.faults source.old ≤ S.faults source.new }
    ensures calls { CallsAtMost (limit_of command + 1) (S.calls source.old) (S.calls source.new) }
{
    if command == WholeInput::Check {
        return check_certificate(alloc, source, rules);
    }
    let found = match read_limited(alloc, source, command.limit())? {
        Taken::Whole(bytes) => find_answer(alloc, command, &bytes, rules),
        Taken::TooLong => Answer::too_long(alloc),
    };
    match found {
        Ok(answer) => Ok(answer),
        Err(AllocError) => Err(ReadStop::NoMemory),
    }
}

// The same, and what follows of the answer: its status, and what it is to bytes that the source tells.
fn read_answer<S: Source>(
    alloc: Global,
    command: WholeInput,
    source: &mut S,
    rules: &RuleSet,
) -> Result<Answer, ReadStop>
    requires no_script { command ≢ WholeInput.Debug }
    ensures answer { IfOk result (λ answer. IsAnswer command
        (S.left source.old) (S.left source.new) (answer_of answer)) }
    ensures no_usage { IfOk result (λ answer. (answer_of answer).outcome.status ≢ Status.Usage) }
    ensures ends { IfOk result (λ answer.
        is_answer_of command (answer_of answer).outcome.status ≡ true) }
    ensures told { IfSome (S.left source.old) (λ bytes.
        IfOk result (λ answer. IsAnswerTo command bytes (answer_of answer))) }
    ensures failed { result ≡ Err ReadStop.Failed
        → Rose (S.faults source.old) (S.faults source.new) }
    ensures faults { S.faults source.old ≤ S.faults source.new }
    ensures calls { CallsAtMost (limit_of command + 1) (S.calls source.old) (S.calls source.new) }
{
    find_in_source(alloc, command, source, rules)
}

/// Reads a source to its end, and writes an answer to its bytes. It takes memory for the bytes and
/// for the answer.
pub fn answer_input<S: Source, K: Sink>(
    alloc: Global,
    command: WholeInput,
    source: &mut S,
    sink: &mut K,
    rules: &RuleSet,
) -> Outcome
    ensures given { IfGiven result.status (WasGiven command result
        (S.left source.old) (S.left source.new) (K.written sink.old) (K.written sink.new)) }
    ensures read_fault { result.status ≡ Status.ReadFault → sink.new ≡ sink.old }
    ensures no_memory { result.status ≡ Status.NoMemory → sink.new ≡ sink.old }
    ensures write_fault { result.status ≡ Status.WriteFault → WasCutShort command
        (S.left source.old) (S.left source.new) (K.written sink.old) (K.written sink.new) }
    ensures told { IfSome (S.left source.old) (λ bytes. IfGiven result.status
        (WasTold command bytes result (K.written sink.old) (K.written sink.new))) }

    // When each status comes that the answers don't decide, and when something is kept.
    ensures no_usage { result.status ≢ Status.Usage }
    ensures ends { can_end command result.status ≡ true }
    ensures keeps { is_fault result.status ≡ true → result.kept ≡ Kept.Nothing }
    ensures read_cause { result.status ≡ Status.ReadFault
        → Rose (S.faults source.old) (S.faults source.new) }
    ensures write_cause { result.status ≡ Status.WriteFault
        → Rose (K.faults sink.old) (K.faults sink.new) }
    ensures read_faults { S.faults source.old ≤ S.faults source.new }
    ensures write_faults { K.faults sink.old ≤ K.faults sink.new }
    ensures calls { CallsAtMost (limit_of command + 1) (S.calls source.old) (S.calls source.new) }
{
    if command == WholeInput::Debug {
        return debug_input(alloc, source, sink);
    }
    match read_answer(alloc, command, source, rules) {
        Ok(answer) => match answer.write(sink) {
            Ok(()) => answer.outcome(),
            Err(Failed) => Outcome::of(Status::WriteFault),
        },
        Err(ReadStop::Failed) => Outcome::of(Status::ReadFault),
        Err(ReadStop::NoMemory) => Outcome::of(Status::NoMemory),
    }
}
