//! What a check answers. All answers but Shape come with the book that the check kept, since what
//! they say is said of its leaves.
use jd_logic::BadLine;
use jd_walk::{Book, Path};

/// What a check of a certificate says. The book has one leaf for each leaf and cut of the tree.
#[derive(Drop)]
pub enum Checked {
    /// The tree covers every path, every line is right, and each leaf and cut is refuted.
    Equal(Book),
    /// The first path at which the tree doesn't cover: a fork where control asks nothing, or a leaf
    /// where it still asks.
    Shape(Path),
    /// The tree covers, and this is the first line that isn't right, counted from 1 in its node.
    Bad {
        book: Book,
        path: Path,
        line: u64,
        cause: BadLine,
    },
    /// The tree covers and every line is right, and this is the first node that isn't refuted.
    More {
        book: Book,
        path: Path,
    },
}
