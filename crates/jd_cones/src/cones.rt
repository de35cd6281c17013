//! A walk's circuit may have gates that neither guards nor difference stand on, and a book would
//! keep them all. Here the marks and the new numbers make the leaf without them, with the same path
//! and inputs.
ghost use Rattle.std.specs.Prelude.{IfOk};
ghost use Rattle.jd_cones.specs.Cones.{IsConeOf};
ghost use Rattle.jd_leaves.specs.Views.{leaf_of};

use crate::marking::needed;
use crate::renumbering::{renamed, renamed_literals, renumbered};
use hp_io::NoMemory;
use jd_circuit::Gates;
use jd_leaves::{Guards, Leaf};
use std::alloc::Global;

/// The leaf with the gates alone that its guards and its difference stand on, numbered anew in their
/// order. Takes time and memory for every variable once.
pub fn cone(alloc: Global, leaf: Leaf) -> Result<Leaf, NoMemory>
    ensures { IfOk result (λ kept. IsConeOf (leaf_of leaf) (leaf_of kept)) }
{
    let marks = needed(alloc, &leaf)?;
    let renumbering = renumbered(alloc, leaf.inputs, leaf.gates.as_slice(), marks.as_slice())?;
    let numbers = renumbering.numbers.as_slice();
    let guards = renamed_literals(alloc, numbers, leaf.guards.as_slice())?;
    let diff = renamed(numbers, leaf.diff);
    Ok(Leaf {
        path: leaf.path,
        inputs: leaf.inputs,
        gates: Gates::new(renumbering.gates),
        guards: Guards::new(guards),
        diff,
        kind: leaf.kind,
    })
}
