//! A check between two events: what is known of the nodes before, and which of them is still open.
//! `turns` changes it, one event at a time.
ghost use Rattle.std.specs.Prelude.{◌≡◌, false};

use crate::progress::{Open, Progress};
use jd_logic::Line;
use jd_walk::{Kind, Path};
use std::alloc::Global;

/// The nodes that were taken, the leaf or cut that is open, and the first path at which the tree
/// doesn't cover. Once that is found, or the tree is whole, no event is looked at.
pub struct Going<'r> {
    pub progress: Progress<'r>,
    pub part: Option<Open>,
    pub shape: Option<Path>,
}

impl Drop for Going<'_> {
    fn drop(self) {
        let Going {
            progress: _progress,
            part: _part,
            shape: _shape,
        } = self;
    }
}

impl<'r> Going<'r> {
    /// What is kept of the nodes that were taken, and where the tree doesn't cover.
    pub fn into_parts(self) -> (Progress<'r>, Option<Path>)
        ensures progress { result.0 ≡ self.entry.progress }
        ensures shape { result.1 ≡ self.entry.shape }
    {
        let Going {
            progress,
            part: _part,
            shape,
        } = self;
        (progress, shape)
    }
}

/// A check of a certificate whose events come one after another.
#[derive(Drop)]
pub struct CheckRun<'r> {
    pub(crate) alloc: Global,
    pub(crate) going: Going<'r>,
    /// Whether memory ran out.
    pub(crate) spent: bool,
    pub(crate) ghost unspent: { spent ≡ false → going.progress.walk.spent ≡ false },
}

/// An event of a certificate. A line is lent by whoever keeps it.
#[derive(Clone, Copy)]
pub enum Event<'a> {
    Fork,
    Begin(Kind),
    Line(&'a Line),
    End,
}
