//! What is left of a walk at the end of a path, and all that a refutation needs. Its facts keep
//! variables below 2^31, so `clauses` can write each as an i32.
ghost use Rattle.std.specs.Prelude.{◌+◌, ◌<◌, ◌^◌, ◌∷◌, ◌++◌, [], All, length};
ghost use Rattle.std.proofs.Props.{props};
ghost use Rattle.jd_circuit.specs.Net.{IsLit, IsWired};
ghost use Rattle.jd_leaves.specs.Wired.{IsWired-prop};

use crate::lists::{Guards, Path};
use jd_circuit::{Gates, Lit};
use jd_trees::Kind;

/// The end of a path: the circuit there, the guards that are true of the starts that come to it, and
/// the literal that is true where the two runs from such a start aren't seen the same. In a cut it is
/// the constant true. Variables are the inputs from 1 on and then the gates in their order.
#[derive(Drop)]
pub struct Leaf {
    pub path: Path,
    pub inputs: u32,
    pub gates: Gates,
    pub guards: Guards,
    pub diff: Lit,
    pub kind: Kind,
    pub ghost few: { inputs + length gates < 2 ^ 31 },
    pub ghost wired: { IsWired inputs gates } by { IsWired-prop inputs gates },
    pub ghost literals: { All (IsLit (inputs + length gates)) (guards ++ diff ∷ []) } by { Prim.hlevel props },
}
