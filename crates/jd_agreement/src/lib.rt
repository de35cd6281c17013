//! Whether two runs are seen the same, told part by part: ends, numbers and nibbles. A replay and the
//! difference of two symbolic runs both compare so.
#![tactic(auto)]

ghost use Rattle.std.specs.Prelude.{◌≡◌};
ghost use Rattle.jd_model.specs.Seen.{same_end};

use hp_model::End;

/// Whether two runs end in the same way, errors with the same number.
pub fn same_end(first: End, second: End) -> bool
    ensures { result ≡ same_end first second }
{
    match first {
        End::Return => matches!(second, End::Return),
        End::Halt => matches!(second, End::Halt),
        End::Error(number) => match second {
            End::Error(other) => number == other,
            _ => false,
        },
    }
}
