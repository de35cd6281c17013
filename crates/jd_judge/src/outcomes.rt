//! What the judge answers, and what it has gathered on the way there. The two stand together, since
//! an answer is made by taking what was gathered apart.
ghost use Rattle.std.specs.Prelude.{◌≡◌};
ghost use Rattle.jd_trees.specs.Trees.{IsCert};

use crate::starts::Starts;
use jd_cert::Cert;
use jd_logic::Log;
use jd_rules::RuleSet;
use jd_start::Start;
use jd_trees::Node;
use jd_walk::{Book, Leaf, Walk};

/// What the judge says of two routines.
#[derive(Drop)]
pub enum Judged {
    /// They agree from every allowed start. The certificate's tree covers every path, and its lines
    /// refute each leaf and cut of the book.
    Equal(Book, Cert),
    /// An allowed start from which they aren't seen the same, or one is late.
    Different(Start),
    /// A question that the prover's budget of lines didn't decide, and these lines.
    Unknown(Leaf, Log),
    /// One more allowed start than the problem has paths, each with answers of its own.
    TooManyPaths(Starts),
}

/// How far the judge has come: the walk, the book and the certificate so far, a start of each whole
/// leaf, and a start that comes to the walk's path. At the empty path none is looked for.
pub struct Judging<'r> {
    pub walk: Walk<'r, RuleSet>,
    pub book: Book,
    pub nodes: Vec<Node>,
    pub starts: Starts,
    pub witness: Option<Start>,
}

impl Drop for Judging<'_> {
    fn drop(self) {
        let Judging {
            walk: _walk,
            book: _book,
            nodes: _nodes,
            starts: _starts,
            witness: _witness,
        } = self;
    }
}

impl Judging<'_> {
    /// The answer where the tree is whole.
    pub fn into_equal(self) -> Judged
        requires { IsCert self.nodes.items }
        ensures { result ≡ Judged.Equal self.entry.book self.entry.nodes.items }
    {
        let Judging {
            walk: _walk,
            book,
            nodes,
            starts: _starts,
            witness: _witness,
        } = self;
        Judged::Equal(book, Cert::new(nodes))
    }

    /// The starts of the whole leaves.
    pub fn into_starts(self) -> Starts
        ensures { result ≡ self.entry.starts }
    {
        let Judging {
            walk: _walk,
            book: _book,
            nodes: _nodes,
            starts,
            witness: _witness,
        } = self;
        starts
    }
}

/// Whether the judge goes on, or has its answer.
#[derive(Drop)]
pub enum Step<'r> {
    Go(Judging<'r>),
    Over(Judged),
}
