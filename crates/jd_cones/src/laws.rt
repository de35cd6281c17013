//! Why a leaf may be cut down: where it's faithful to a problem, so is its cone. A walk hands out
//! cones alone, and its own contract rests on this.
ghost use Rattle.jd_cones.specs.Laws.{FaithfulCones};

/// The cone of a faithful leaf is faithful.
pub fn faithful_cones()
    ensures { FaithfulCones }
{}
