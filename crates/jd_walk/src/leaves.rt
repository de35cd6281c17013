//! The judge and the check refute leaves, not walks, so here a path becomes one: guards of the
//! assumptions before those of the answers, and the cone alone of the circuit.
ghost use Rattle.std.specs.Prelude.{◌≡◌, ◌++◌, false, true, IfOk};
ghost use Rattle.jd_trees.specs.declared.Kind.TheVariants.{Whole};
ghost use Rattle.jd_leaves.specs.Views.{leaf_of};
ghost use Rattle.jd_walk.specs.Leaves.{diff_at, IsWholeLeafOf, IsLeafOf};
ghost use Rattle.jd_walk.specs.Walked.{is_done};

use crate::places::Next;
use crate::walks::Walk;
use jd_circuit::{Lit, NoMemory, Rewrite};
use jd_cones::cone;
use jd_leaves::{Guards, Kind, Leaf, Path};
use std::alloc::Global;

/// The literal of the difference where the leaf is whole, and the constant true in a cut.
fn diff_of(next: Option<Next>, kind: Kind) -> Lit
    ensures { result ≡ diff_at next kind }
{
    match next {
        Some(Next::Done(l)) => match kind {
            Kind::Whole => l,
            Kind::Cut => Lit::Const(true),
        },
        Some(Next::Ask(_)) => Lit::Const(true),
        None => Lit::Const(true),
    }
}

/// The guards of the assumptions and then those of the answers.
pub fn joined_guards(alloc: Global, assumed: &[Lit], guards: &[Lit]) -> Result<Guards, NoMemory>
    ensures { IfOk result (λ joined. joined ≡ assumed.now ++ guards.now) }
{
    let mut joined = Vec::from_slice(alloc, assumed)?;
    joined.extend_from_slice(guards)?;
    Ok(Guards::new(joined))
}

impl<'r, W: Rewrite> Walk<'r, W> {
    /// The leaf of the walk's path, with all gates of its circuit.
    fn whole_leaf(&self, kind: Kind) -> Result<Leaf, NoMemory>
        requires unspent { self.now.spent ≡ false }
        requires whole { kind ≡ Whole → is_done self.now.next ≡ true }
        ensures { IfOk result (λ l. IsWholeLeafOf self.now kind (leaf_of l)) }
    {
        Ok(Leaf {
            path: Path::of(self.alloc, self.path.as_slice())?,
            inputs: self.problem.free_bits(),
            gates: self.circuit.gates()?,
            guards: joined_guards(self.alloc, self.assumed.as_slice(), self.guards.as_slice())?,
            diff: diff_of(self.next, kind),
            kind,
        })
    }

    /// The leaf of the walk's path, with the gates alone that its guards and its difference stand
    /// on. A cut has the difference true; a whole leaf has the literal that the last `next` said,
    /// which was Done.
    pub fn leaf(&self, kind: Kind) -> Result<Leaf, NoMemory>
        requires unspent { self.now.spent ≡ false }
        requires whole { kind ≡ Whole → is_done self.now.next ≡ true }
        ensures { IfOk result (λ l. IsLeafOf self.now kind (leaf_of l)) }
    {
        let leaf = cone(self.alloc, self.whole_leaf(kind)?)?;
        Ok(leaf)
    }
}
