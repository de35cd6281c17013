//! The lines of a certificate, one after another: each is read by the reader of certificates, and
//! what it tells is handed to the check at once, so that no list of lines is kept.
ghost use Rattle.std.specs.Prelude.{◌∷◌, ◌++◌, ◌+◌, ◌<◌, ◌^◌, [], ℕ, List, IfOk, IfErr, OnOk};
ghost use Rattle.jd_model.specs.Problems.{Problem};
ghost use Rattle.jd_text.specs.Words.{words_of};
ghost use Rattle.jd_check.specs.Runs.{IsChecking};
ghost use Rattle.jd_checking.specs.CertChecks.{HasTaken, IsLineFault, IsCertChecked};

use hp_io::NoMemory;
use jd_cert::{CertEvent, CertFault, CertReader};
use jd_check::{CheckRun, Checked};

/// Takes the next line, its line feed left out. After an `Err` no line is to be taken.
pub fn take_line(
    reader: &mut CertReader,
    run: &mut CheckRun<'_>,
    line: &[u8],
) -> Result<(), CertFault>
    requires { reader.old.lines + 1 < 2 ^ 32 }
    ensures taken { OnOk result ((p : Problem) (lines : List (List (List ℕ))) → HasTaken (λ events. IsChecking p events run.old) lines reader.old
        → HasTaken (λ events. IsChecking p events run.new) (lines ++ words_of line.now ∷ []) reader.new) }
    ensures fault { IfErr result (λ fault. (p : Problem) (lines : List (List (List ℕ))) → HasTaken (λ events. IsChecking p events run.old) lines reader.old
        → IsLineFault lines (words_of line.now) fault) }
{
    let event = match reader.take(line) {
        Ok(event) => event,
        Err(fault) => return Err(fault),
    };
    match &event {
        CertEvent::Nothing => Ok(()),
        _ => match run.event(&event) {
            Ok(()) => Ok(()),
            Err(NoMemory) => Err(CertFault::NoMemory),
        },
    }
}

/// What the check says where no line is left, or the number after the last line's where the
/// certificate isn't whole.
pub fn finish(reader: &CertReader, run: CheckRun<'_>) -> Result<Result<Checked, u32>, NoMemory>
    requires { reader.now.lines + 1 < 2 ^ 32 }
    ensures { IfOk result (λ answer. (p : Problem) (lines : List (List (List ℕ))) → HasTaken (λ events. IsChecking p events run.entry) lines reader.now
        → IsCertChecked p lines answer) }
{
    if !reader.whole() {
        return Ok(Err(reader.lines() + 1));
    }
    let checked = run.finish()?;
    Ok(Ok(checked))
}
