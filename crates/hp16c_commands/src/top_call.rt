//! The one call that does what the program's words ask for. All that the program promises is its
//! contract; it changes nothing but the two streams.
ghost use Rattle.std.specs.Prelude.{◌≡◌, ℕ, true, ◌+◌, ◌≤◌, ◌↔◌, map, Some, None, IfSome};
ghost use Rattle.hp_io.specs.Causes.{CallsAtMost, Rose};
ghost use Rattle.hp_model.specs.Session.{byte_limit};
ghost use Rattle.hp16c_commands.specs.Commands.{AreWordsOf, IsNoCommand};
ghost use Rattle.hp16c_commands.specs.KeyFiles.{KeysDid, KeysTold, IfAnswer, keys_status};
ghost use Rattle.hp16c_commands.specs.WholeInputs.{limit_of, Did, WasTold, IfGiven, can_end, is_fault};
ghost use Rattle.hp16c_commands.specs.Generating.{GenerateDid};

use crate::commands::Command;
use crate::generating::generate_and_judge;
use crate::key_files::keys;
use crate::outcomes::{Kept, Outcome, Status};
use crate::whole_inputs::{WholeInput, answer_input};
use hp_io::{Sink, Source};
use jd_rules::RuleSet;
use std::alloc::Global;

/// Does the command that the words are, which are those after the program's name. The command reads
/// from the source and writes to the sink. The judge's circuits ask the rules; all that is said here
/// holds whatever rules they are.
pub fn hp16c<S: Source, K: Sink>(
    alloc: Global,
    words: &[String],
    source: &mut S,
    sink: &mut K,
    rules: &RuleSet,
) -> Outcome
    // Words that are no command.
    ensures usage { result.status ≡ Status.Usage ↔ IsNoCommand words.now }
    ensures usage_reads { result.status ≡ Status.Usage → source.new ≡ source.old }
    ensures usage_writes { result.status ≡ Status.Usage → sink.new ≡ sink.old }
    ensures usage_keeps { result.status ≡ Status.Usage → result.kept ≡ Kept.Nothing }

    // `keys`: the text and the status are the key file's. Where the source tells its bytes, they alone
    // decide, and no memory is taken.
    ensures keys_did { AreWordsOf Command.Keys words.now → KeysDid result.status
        (S.left source.old) (S.left source.new) (K.written sink.old) (K.written sink.new) }
    ensures keys_told { AreWordsOf Command.Keys words.now
        → IfSome (S.left source.old) (λ bytes. IfAnswer result.status
        (KeysTold result.status bytes (K.written sink.old) (K.written sink.new))) }
    ensures keys_complete { AreWordsOf Command.Keys words.now
        → ¬ Rose (S.faults source.old) (S.faults source.new) → ¬ Rose (K.faults sink.old) (K.faults sink.new)
        → IfSome (S.left source.old) (λ bytes. result.status ≡ keys_status bytes) }
    ensures keys_reads { AreWordsOf Command.Keys words.now
        → CallsAtMost (byte_limit + 1) (S.calls source.old) (S.calls source.new) }

    // The others: what is written and kept answers the source's bytes.
    ensures input_did { (command : WholeInput) → AreWordsOf (Command.Read command) words.now → Did command result
        (S.left source.old) (S.left source.new) (K.written sink.old) (K.written sink.new) }
    ensures input_told { (command : WholeInput) → AreWordsOf (Command.Read command) words.now
        → IfSome (S.left source.old) (λ bytes. IfGiven result.status
        (WasTold command bytes result (K.written sink.old) (K.written sink.new))) }
    ensures input_reads { (command : WholeInput) → AreWordsOf (Command.Read command) words.now
        → CallsAtMost (limit_of command + 1) (S.calls source.old) (S.calls source.new) }
    ensures input_ends { (command : WholeInput) → AreWordsOf (Command.Read command) words.now
        → can_end command result.status ≡ true }

    // `gen`: the routines of the number's problem agree, and a certificate shows it.
    ensures generate_did { (n : ℕ) → AreWordsOf (Command.Generate n) words.now → GenerateDid n result
        (K.written sink.old) (K.written sink.new) }
    ensures generate_reads { (n : ℕ) → AreWordsOf (Command.Generate n) words.now → source.new ≡ source.old }

    // With a fault, and after `keys`, nothing is kept.
    ensures keeps { is_fault result.status ≡ true → result.kept ≡ Kept.Nothing }
    ensures keys_keeps { AreWordsOf Command.Keys words.now → result.kept ≡ Kept.Nothing }

    // A fault has its cause: a count rose in this call.
    ensures read_cause { result.status ≡ Status.ReadFault → Rose (S.faults source.old) (S.faults source.new) }
    ensures write_cause { result.status ≡ Status.WriteFault → Rose (K.faults sink.old) (K.faults sink.new) }
    ensures read_faults { S.faults source.old ≤ S.faults source.new }
    ensures write_faults { K.faults sink.old ≤ K.faults sink.new }
{
    let Some(command) = Command::of_words(words) else {
        return Outcome::of(Status::Usage);
    };
    match command {
        Command::Keys => Outcome {
            status: keys(source, sink),
            kept: Kept::Nothing,
        },
        Command::Read(command) => answer_input(alloc, command, source, sink, rules),
        Command::Generate(n) => generate_and_judge(alloc, n, sink, rules),
    }
}
