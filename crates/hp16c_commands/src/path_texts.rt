//! Paths as `judge` and `check` print them: a digit for each answer.
ghost use Rattle.std.specs.Prelude.{◌≡◌, ◌<◌, ◌++◌, OnOk};
ghost use Rattle.std.specs.String.{string_bytes};
ghost use Rattle.hp16c_commands.specs.PathTexts.{answer_code, path_text};

use std::alloc::AllocError;

/// The digit of an answer: 1 for yes, 0 for no.
fn answer_digit(yes: bool) -> char
    ensures code { result ≡ answer_code yes }
    ensures ascii { result < 128 }
{
    if yes { '1' } else { '0' }
}

/// Adds a path: its answers, or a minus where it has none.
pub fn push_path(text: &mut String, path: &[bool]) -> Result<(), AllocError>
    ensures { OnOk result (string_bytes text.new ≡ string_bytes text.old ++ path_text path.now) }
{
    if path.is_empty() {
        return text.push_str("-");
    }
    for yes in path {
        text.push(answer_digit(*yes))?;
    }
    Ok(())
}
