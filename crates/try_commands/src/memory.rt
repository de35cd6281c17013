//! A run after allocations that serve nothing else. Where a program is run with one allocation refused,
//! their number says which of the run's own that is.
use crate::rows::Row;
use crate::runs::{Ended, Failing, Pace, run};
use std::alloc::{AllocError, Global};

/// Allocations, all of which are kept.
fn allocate(alloc: Global, count: u64) -> Result<Vec<Vec<u8>>, AllocError> {
    let mut kept = Vec::new(alloc);
    for _ in 0..count {
        kept.push(vec![in alloc; 0u8; 1]?)?;
    }
    Ok(kept)
}

/// Does a row's command after the allocations that it asks for, and answers how many these were too.
pub fn run_after(alloc: Global, row: &Row) -> Result<(Ended, usize), AllocError> {
    let kept = allocate(alloc, row.before)?;
    let ended = run(alloc, row, Pace::AllAtOnce, Failing::read(0))?;
    Ok((ended, kept.len()))
}
