//! The errors of reading, writing and memory, of which each crate above makes its own.
ghost use Rattle.std.specs.Prelude.{◌≡◌, IsErr};
ghost use Rattle.hp_io.specs.Causes.{HasCause, counted};

use std::alloc::{AllocError, AllocFailed};
use thiserror::Error;

/// A read or a write failed.
#[derive(Clone, Copy, Debug, PartialEq, Eq, Error)]
#[error("a read or a write failed")]
pub struct Failed;

/// Memory was refused.
#[derive(Clone, Copy, Debug, PartialEq, Eq, Error)]
#[error("there is no memory left")]
pub struct NoMemory;

impl From<AllocError> for NoMemory {
    fn from(_e: AllocError) -> NoMemory {
        NoMemory
    }
}

impl<T: Drop> From<AllocFailed<T>> for NoMemory {
    fn from(_e: AllocFailed<T>) -> NoMemory {
        NoMemory
    }
}

// One failure more.
pub(crate) fn fail(faults: &mut u64) -> Result<usize, Failed>
    ensures answer { IsErr result }
    ensures count { faults.new ≡ counted faults.old }
    ensures cause { HasCause faults.old faults.new result }
{
    *faults = faults.saturating_add(1);
    Err(Failed)
}
