//! The nodes of a certificate, one after another: the walk tells whether a node may stand where it
//! does, and goes on to the next place. Each leaf and cut adds its leaf to the book.
ghost use Rattle.std.specs.Prelude.{◌≡◌, ◌∷◌, ◌++◌, [], List, false, true, None, Some, IfOk, OnOk};
ghost use Rattle.jd_logic.specs.declared.Line.{Line};
ghost use Rattle.jd_model.specs.Problems.{Problem};
ghost use Rattle.jd_trees.specs.declared.Kind.{Kind};
ghost use Rattle.jd_trees.specs.declared.Kind.TheVariants.{Whole};
ghost use Rattle.jd_trees.specs.declared.Node.{Node};
ghost use Rattle.jd_trees.specs.declared.Node.TheVariants.{Fork};
ghost use Rattle.jd_trees.specs.Trees.{node};
ghost use Rattle.jd_books.specs.Trees.{or_first, leaf_fault};
ghost use Rattle.jd_books.specs.Checks.{or_bad, or_open};
ghost use Rattle.jd_leaves.specs.Views.{leaf_of};
ghost use Rattle.jd_walk.specs.Walked.{is_done};
ghost use Rattle.jd_check.specs.Progress.{IsTaken, IsNext, IsOpen, IsOpened, IsBegun, log_after, bad_of, path_of};

use crate::lines::LogCheck;
use crate::progress::{Bad, Open, Opened, Progress};
use hp_io::NoMemory;
use jd_rules::RuleSet;
use jd_walk::{Kind, Leaf, Next, Path, Walk};
use std::alloc::Global;

/// Takes a fork, after which the walk goes on with no; or the path at which it may not stand.
pub fn fork(alloc: Global, run: &mut Progress<'_>) -> Result<Option<Path>, NoMemory>
    ensures unspent { OnOk result (run.new.walk.spent ≡ false) }
    ensures next { IfOk result (λ shape. (p : Problem) (nodes : List Node) → run.old.whole ≡ false → IsTaken p nodes run.old → IsNext p nodes Fork run.new shape) }
{
    match run.walk.next()? {
        Next::Ask(_) => {
            run.walk.answer(false)?;
            Ok(None)
        }
        Next::Done(_) => Ok(Some(Path::of(alloc, run.walk.path())?)),
    }
}

/// Whether a leaf or a cut may stand here.
fn may_stand(walk: &mut Walk<'_, RuleSet>, kind: Kind) -> Result<bool, NoMemory>
    requires unspent { walk.old.spent ≡ false }
    ensures problem { OnOk result (walk.new.problem ≡ walk.old.problem) }
    ensures path { OnOk result (walk.new.path ≡ walk.old.path) }
    ensures unspent { OnOk result (walk.new.spent ≡ false) }
    ensures over { IfOk result (λ may. may ≡ true → kind ≡ Whole → is_done walk.new.next ≡ true) }
    ensures right { IfOk result (λ may. may ≡ true → leaf_fault walk.old.problem walk.old.path kind ≡ None) }
    ensures wrong { IfOk result (λ may. may ≡ false → leaf_fault walk.old.problem walk.old.path kind ≡ Some walk.old.path) }
{
    match kind {
        Kind::Cut => Ok(true),
        Kind::Whole => match walk.next()? {
            Next::Ask(_) => Ok(false),
            Next::Done(_) => Ok(true),
        },
    }
}

/// Opens a leaf or a cut, or answers the path at which it may not stand.
pub fn open(alloc: Global, run: &mut Progress<'_>, kind: Kind) -> Result<Opened, NoMemory>
    requires unspent { run.old.walk.spent ≡ false }
    ensures unspent { OnOk result (run.new.walk.spent ≡ false) }
    ensures opened { IfOk result (λ opened. (p : Problem) (nodes : List Node) → run.old.whole ≡ false → IsTaken p nodes run.old → IsOpened p nodes kind run.new opened) }
    ensures begun { IfOk result IsBegun }
{
    if !may_stand(&mut run.walk, kind)? {
        return Ok(Opened::Shape(Path::of(alloc, run.walk.path())?));
    }
    let leaf = run.walk.leaf(kind)?;
    let clauses = leaf.clauses(alloc)?;
    let check = LogCheck::new(alloc, &clauses)?;
    Ok(Opened::Open(Open { leaf, check }))
}

/// Keeps a leaf or a cut whose lines were checked.
fn keep(alloc: Global, run: &mut Progress<'_>, leaf: Leaf, check: &LogCheck) -> Result<(), NoMemory>
    ensures walk { run.new.walk ≡ run.old.walk }
    ensures whole { run.new.whole ≡ run.old.whole }
    ensures book { OnOk result (run.new.book ≡ run.old.book ++ leaf_of leaf ∷ []) }
    ensures bad { OnOk result (bad_of run.new.bad ≡ or_first (bad_of run.old.bad) (or_bad leaf.path (log_after check.now []) None)) }
    ensures unrefuted { OnOk result (path_of run.new.unrefuted ≡ or_first (path_of run.old.unrefuted) (or_open leaf.path (log_after check.now []) None)) }
{
    match check.bad {
        Some((line, cause)) => {
            if run.bad.is_none() {
                let path = Path::of(alloc, leaf.path.as_slice())?;
                run.bad = Some(Bad { path, line, cause });
            }
        }
        None => {
            if !check.checker.refuted() && run.unrefuted.is_none() {
                let path = Path::of(alloc, leaf.path.as_slice())?;
                run.unrefuted = Some(path);
            }
        }
    }
    run.book.push(leaf)?;
    Ok(())
}

/// Ends the leaf or cut that is open, and goes back to the next place.
pub fn end(alloc: Global, run: &mut Progress<'_>, part: Open) -> Result<(), NoMemory>
    requires unspent { run.old.walk.spent ≡ false }
    ensures unspent { OnOk result (run.new.walk.spent ≡ false) }
    ensures taken { OnOk result ((p : Problem) (nodes : List Node) (kind : Kind) (log : List Line) → IsOpen p nodes kind log run.old part → IsTaken p (nodes ++ node kind log ∷ []) run.new) }
{
    let Open { leaf, check } = part;
    keep(alloc, run, leaf, &check)?;
    run.whole = !run.walk.back();
    Ok(())
}
