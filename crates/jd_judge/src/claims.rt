//! What is claimed of each allowed start, and the whole leaves that say where it is false: all that
//! the judge knows of the claim that it judges. That both routines agree is one claim.
ghost use Rattle.std.specs.Prelude.{◌≡◌, not, false, true, IfOk, OnOk};
ghost use Rattle.hp_model.specs.State.{Data};
ghost use Rattle.jd_model.specs.Problems.{Problem as ProblemOf};
ghost use Rattle.jd_model.specs.Seen.{agree, seen};
ghost use Rattle.jd_problem.specs.Problems.{problem_of};
ghost use Rattle.jd_leaves.specs.Views.{leaf_of};
ghost use Rattle.jd_walk.specs.Leaves.{IsLeafFor};
ghost use Rattle.jd_walk.specs.Walked.{Walked, is_done};

use jd_circuit::NoMemory;
use jd_cones::cone;
use jd_problem::Problem;
use jd_rules::RuleSet;
use jd_walk::{Difference, Kind, Leaf, Walk};
use std::alloc::Global;

/// A claim on the starts of a problem.
pub trait Claim {
    ghost use Rattle.std.specs.Prelude.{◌≡◌, Bool, false, true, IfOk, OnOk};
    ghost use Rattle.hp_model.specs.State.{Data};
    ghost use Rattle.jd_model.specs.Problems.{Problem as ProblemOf};
    ghost use Rattle.jd_leaves.specs.Views.{leaf_of};
    ghost use Rattle.jd_walk.specs.Leaves.{IsLeafFor};
    ghost use Rattle.jd_walk.specs.Walked.{Walked, is_done};

    /// Whether it holds of a start.
    ghost holds: { Self → Data → Bool };

    /// Of which problem it is.
    ghost is_of: { Self → ProblemOf → Type 0 };

    /// The leaf of a path after which both runs are over. Its difference is true where the claim is
    /// false. The walk's circuit may get more gates.
    fn whole_leaf(&self, alloc: Global, walk: &mut Walk<'_, RuleSet>) -> Result<Leaf, NoMemory>
        requires unspent { walk.old.spent ≡ false }
        requires done { is_done walk.old.next ≡ true }
        requires problem { is_of self.now walk.old.problem }
        ensures walk { OnOk result (walk.new ≡ record walk.old { net = walk.new.net }) }
        ensures leaf { IfOk result (λ l. IsLeafFor walk.new (holds self.now) Kind.Whole (leaf_of l)) };
}

/// That both routines agree.
#[derive(Drop)]
pub struct Agreement<'p> {
    pub problem: &'p Problem,
}

impl Claim for Agreement<'_> {
    ghost holds = { λ a s. agree (problem_of a.problem.now) s };

    ghost is_of = { λ a p. p ≡ problem_of a.problem.now };

    fn whole_leaf(&self, alloc: Global, walk: &mut Walk<'_, RuleSet>) -> Result<Leaf, NoMemory> {
        let leaf = walk.leaf(Kind::Whole)?;
        Ok(leaf)
    }
}

/// That a difference is false of both ends.
#[derive(Drop)]
pub struct NoDifference<'p, D> {
    pub problem: &'p Problem,
    pub difference: &'p D,
}

impl<D: Difference> Claim for NoDifference<'_, D> {
    ghost holds = { λ a s. not (D.differs a.difference.now s (seen (problem_of a.problem.now) (problem_of a.problem.now).first s) (seen (problem_of a.problem.now) (problem_of a.problem.now).second s)) };

    ghost is_of = { λ a p. (p ≡ problem_of a.problem.now) × (D.size a.difference.now ≡ p.size) };

    fn whole_leaf(&self, alloc: Global, walk: &mut Walk<'_, RuleSet>) -> Result<Leaf, NoMemory> {
        let diff = walk.done_with(self.difference)?;
        let leaf = walk.leaf_with(diff)?;
        let kept = cone(alloc, leaf)?;
        Ok(kept)
    }
}
