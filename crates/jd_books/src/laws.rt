//! What is proved of the definitions.
ghost use Rattle.jd_books.specs.Laws.{Soundness, Covering, InPreorder, Refutations};
ghost use Rattle.jd_books.specs.WorkedBooks.{WorkedPaths, WorkedTrees, WorkedLeaves};

/// The definitions of paths give what the worked examples say.
pub fn worked_paths()
    ensures { WorkedPaths }
{}

/// The same of trees and the paths that they leave open.
pub fn worked_trees()
    ensures { WorkedTrees }
{}

/// The same of leaves, their clauses and the lines of their proofs.
pub fn worked_leaves()
    ensures { WorkedLeaves }
{}

/// A tree that covers, with a faithful book whose clauses can't all be true, shows that all
/// allowed starts agree.
pub fn soundness()
    ensures { Soundness }
{}

/// Clauses from which right lines derive the empty clause can't all be true.
pub fn refutations()
    ensures { Refutations }
{}

/// A tree covers exactly where there is no first path at which it doesn't.
pub fn covering()
    ensures { Covering }
{}

/// What is said of a tree is what is said of its nodes in preorder, one after another.
pub fn in_preorder()
    ensures { InPreorder }
{}
