//! Why no further line is had.
use hp_io::{Failed, NoMemory};
use thiserror::Error;

/// Why no further line is had.
#[derive(Clone, Copy, Debug, PartialEq, Eq, Error)]
pub enum LineStop {
    /// A byte past the limit was read.
    #[error("there are too many bytes")]
    TooLong,
    #[error("a read failed")]
    Failed,
    #[error("there is no memory left")]
    NoMemory,
}

impl From<Failed> for LineStop {
    ghost use Rattle.std.specs.Prelude.{◌≡◌};
    ghost use Rattle.jd_lines.specs.declared.stops.LineStop.{LineStop};

    ghost from_gives = { λ _ stop. stop ≡ LineStop.Failed };

    fn from(_failed: Failed) -> LineStop {
        LineStop::Failed
    }
}

impl From<NoMemory> for LineStop {
    ghost use Rattle.std.specs.Prelude.{◌≡◌};
    ghost use Rattle.jd_lines.specs.declared.stops.LineStop.{LineStop};

    ghost from_gives = { λ _ stop. stop ≡ LineStop.NoMemory };

    fn from(_e: NoMemory) -> LineStop {
        LineStop::NoMemory
    }
}
