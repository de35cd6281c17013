//! The command `lrat`: what the checker of proofs says of a text, with the status that goes with
//! its verdict.
ghost use Rattle.std.specs.Prelude.{◌≡◌, ◌≤◌, length, IfOk};
ghost use Rattle.hp16c_commands.specs.Lrat.{status_of_verdict, kept_of_verdict, lrat_answer};
ghost use Rattle.hp16c_commands.specs.Answered.{answer_of};
ghost use Rattle.hp16c_commands.specs.WholeInputs.{limit_of};

use crate::outcomes::{Kept, Outcome, Status};
use crate::told::Answer;
use crate::whole_inputs::WholeInput;
use hp_io::Bytes;
use jd_lrat::{Verdict, check_text};
use std::alloc::{AllocError, Global};

fn status_of(verdict: Verdict) -> Status
    ensures { result ≡ status_of_verdict verdict }
{
    match verdict {
        Verdict::NotText { .. } => Status::BadInput,
        Verdict::Refuted => Status::Done,
        Verdict::NotRefuted | Verdict::Bad { .. } => Status::CertRefused,
    }
}

fn kept_of(verdict: Verdict) -> Kept
    ensures { result ≡ kept_of_verdict verdict }
{
    match verdict {
        Verdict::Bad { line, cause } => Kept::Proof { line, cause },
        _ => Kept::Nothing,
    }
}

/// What the check of a proof says, for the bytes of its clauses in DIMACS form and then of its lines.
/// It takes memory for the clauses.
pub fn check_proof(alloc: Global, bytes: &Bytes) -> Result<Answer, AllocError>
    requires { length bytes.now ≤ limit_of WholeInput.Lrat }
    ensures { IfOk result (λ answer. answer_of answer ≡ lrat_answer bytes.now) }
{
    let Ok(verdict) = check_text(alloc, bytes.as_slice()) else {
        return Err(AllocError);
    };
    let outcome = Outcome {
        status: status_of(verdict),
        kept: kept_of(verdict),
    };
    Ok(Answer::with(outcome, format!(in alloc; "{verdict}\n")?))
}
