//! Why the reading of a certificate stops: at a bad line, whose number a refusal can tell, or for
//! want of memory. The two stay apart, since only the first says something of the text.
use jd_lrat::NoMemory;
use thiserror::Error;

/// Why a line of a certificate isn't taken.
#[derive(Clone, Copy, Debug, PartialEq, Eq, Error)]
pub enum CertFault {
    /// The line is the first outside the grammar, counted from 1, or the number after the last
    /// line's where the text ends too early.
    #[error("bad line {line}")]
    Syntax { line: u32 },
    #[error("there is no memory left")]
    NoMemory,
}

impl From<NoMemory> for CertFault {
    ghost use Rattle.std.specs.Prelude.{◌≡◌};
    ghost use Rattle.jd_cert.specs.declared.faults.CertFault.TheVariants.{NoMemory};

    ghost from_gives = { λ _ e. e ≡ NoMemory };

    fn from(_e: NoMemory) -> CertFault {
        CertFault::NoMemory
    }
}
