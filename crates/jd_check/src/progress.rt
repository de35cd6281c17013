//! What a check keeps of the nodes that it has taken: the walk, the book, and the first fault of
//! each kind. The answer is made of it once the tree is whole.
ghost use Rattle.std.specs.Prelude.{◌≡◌};
ghost use Rattle.jd_model.specs.Problems.{Problem};
ghost use Rattle.jd_trees.specs.Trees.{Tree};
ghost use Rattle.jd_check.specs.Runs.{IsChecked, IsTakenOf};

use crate::checked::Checked;
use crate::lines::LogCheck;
use jd_logic::BadLine;
use jd_rules::RuleSet;
use jd_walk::{Book, Leaf, Path, Walk};

/// The first bad line: its path, its number in its node, and why it isn't right.
#[derive(Drop)]
pub struct Bad {
    pub path: Path,
    pub line: u64,
    pub cause: BadLine,
}

/// A leaf or a cut whose lines are being checked.
#[derive(Drop)]
pub struct Open {
    pub leaf: Leaf,
    pub check: LogCheck,
}

/// A leaf or a cut that was opened, or the path at which it may not stand.
#[derive(Drop)]
pub enum Opened {
    Open(Open),
    Shape(Path),
}

/// What is kept of the nodes that were taken. The walk stands where the next node does; where the
/// tree is whole there is none.
pub struct Progress<'r> {
    pub walk: Walk<'r, RuleSet>,
    pub whole: bool,
    pub book: Book,
    pub bad: Option<Bad>,
    pub unrefuted: Option<Path>,
}

impl Drop for Progress<'_> {
    fn drop(self) {
        let Progress {
            walk: _walk,
            whole: _,
            book: _book,
            bad: _bad,
            unrefuted: _unrefuted,
        } = self;
    }
}

impl Progress<'_> {
    /// The book and the first faults. The walk is let go.
    fn into_faults(self) -> (Book, Option<Bad>, Option<Path>)
        ensures book { result.0 ≡ self.entry.book }
        ensures bad { result.1 ≡ self.entry.bad }
        ensures unrefuted { result.2 ≡ self.entry.unrefuted }
    {
        let Progress {
            walk: _walk,
            whole: _,
            book,
            bad,
            unrefuted,
        } = self;
        (book, bad, unrefuted)
    }

    /// What is answered where all nodes were taken.
    pub fn answer(self) -> Checked
        ensures { (p : Problem) (tree : Tree) → IsTakenOf p tree self.entry → IsChecked p tree result }
    {
        let (book, bad, unrefuted) = self.into_faults();
        match bad {
            Some(bad) => {
                let Bad { path, line, cause } = bad;
                Checked::Bad {
                    book,
                    path,
                    line,
                    cause,
                }
            }
            None => match unrefuted {
                Some(path) => Checked::More { book, path },
                None => Checked::Equal(book),
            },
        }
    }
}
