//! What a command kept, in the words of a row.
use hp_asm::{Routine, list};
use hp16c_commands::Kept;
use jd_judge::Judged;
use jd_short::Refusals;
use std::alloc::{AllocError, Global};

fn answer_word(answer: &Judged) -> &'static str {
    match answer {
        Judged::Equal(..) => "equal",
        Judged::Different(_) => "different",
        Judged::Unknown(..) => "unknown",
        Judged::TooManyPaths(_) => "paths",
    }
}

/// A shorter routine's operations, and each refusal with its place, row and answer.
fn short_text(alloc: Global, routine: &Routine, refusals: &Refusals) -> Result<String, AllocError> {
    let mut text = String::from_str(alloc, "short")?;
    for operation in list(routine).as_str().lines() {
        text.push(' ')?;
        text.push_str(operation)?;
    }
    for refusal in refusals.as_slice() {
        let place = refusal.place;
        let row = refusal.row;
        let answer = answer_word(&refusal.answer);
        text.push_str(format!(in alloc; ", place {place} row {row} {answer}")?.as_str())?;
    }
    Ok(text)
}

/// What was kept: its kind, and of `short` all but the leaves and the certificate.
pub fn kept_text(alloc: Global, kept: &Kept) -> Result<String, AllocError> {
    match kept {
        Kept::Nothing => String::from_str(alloc, "nothing"),
        Kept::Judged(..) => String::from_str(alloc, "judged"),
        Kept::Short {
            routine,
            refusals,
            ..
        } => short_text(alloc, routine, refusals),
        Kept::Checked(_) => String::from_str(alloc, "checked"),
        Kept::Start(_) => String::from_str(alloc, "start"),
        Kept::Log(..) => String::from_str(alloc, "log"),
        Kept::Starts(_) => String::from_str(alloc, "starts"),
        Kept::Shape(_) => String::from_str(alloc, "shape"),
        Kept::Refused { .. } => String::from_str(alloc, "refused"),
        Kept::More { .. } => String::from_str(alloc, "more"),
        Kept::Proof { .. } => String::from_str(alloc, "proof"),
    }
}
