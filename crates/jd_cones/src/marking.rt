//! Marks of the variables that are needed: those of the guards and of the difference, and those of
//! the arguments of needed gates. A gate's arguments stand before it, so one pass from the last gate
//! back to the first finds all.
ghost use Rattle.std.specs.Prelude.{◌≡◌, ◌⊎◌, ℕ, ◌+◌, ◌<◌, ◌≤◌, false, true, length, All, IfOk};
ghost use Rattle.jd_circuit.specs.Net.{at, IsLit, IsGateOf, IsWired};
ghost use Rattle.jd_cones.specs.Marks.{with_mark, with_arguments, passed, is_marked, IsGrown, IsClosed, IsForGate, AreMarks, AreNaming};
ghost use Rattle.jd_leaves.specs.Views.{leaf_of};

use hp_io::NoMemory;
use jd_circuit::{Gate, Lit};
use jd_leaves::Leaf;
use std::alloc::Global;

/// Marks a literal's variable. A constant has none.
fn mark(marks: &mut [bool], l: Lit)
    requires { IsLit (length marks.old) l }
    ensures { marks.new ≡ with_mark marks.old l }
{
    match l {
        Lit::Const(_) => {}
        Lit::Var(v) | Lit::Not(v) => marks[v as usize - 1] = true,
    }
}

/// Marks the variables of a gate's arguments.
fn mark_arguments(marks: &mut [bool], gate: Gate)
    requires { IsGateOf (length marks.old) gate }
    ensures { marks.new ≡ with_arguments marks.old gate }
{
    match gate {
        Gate::And(a, b) | Gate::Xor(a, b) => {
            mark(marks, a);
            mark(marks, b);
        }
    }
}

/// Marks the arguments of the gate before which so many variables stand, where it is needed itself.
fn pass(marks: &mut [bool], before: usize, gate: Gate)
    requires inside { before < length marks.old }
    requires gate { IsGateOf (length marks.old) gate }
    ensures { marks.new ≡ passed marks.old before gate }
{
    if marks[before] {
        mark_arguments(marks, gate);
    }
}

/// Marks the arguments of all needed gates, and those of the gates that become needed by it.
fn mark_gates(marks: &mut [bool], inputs: usize, gates: &[Gate])
    requires wired { IsWired inputs gates.now }
    requires all { length marks.old ≡ inputs + length gates.now }
    ensures all { length marks.new ≡ length marks.old }
    ensures grown { IsGrown marks.old marks.new }
    ensures closed { IsClosed inputs gates.now 0 marks.new }
    ensures only { (v : ℕ) → 1 ≤ v → at marks.new v ≡ true → (at marks.old v ≡ true) ⊎ IsForGate inputs gates.now marks.new v }
{
    for step in 0..gates.len() {
        let place = gates.len() - 1 - step;
        pass(marks, inputs + place, gates[place]);
    }
}

/// Marks the variables of literals.
fn mark_literals(marks: &mut [bool], literals: &[Lit])
    requires { All (IsLit (length marks.old)) literals.now }
    ensures all { length marks.new ≡ length marks.old }
    ensures grown { IsGrown marks.old marks.new }
    ensures marked { All (λ l. is_marked marks.new l ≡ true) literals.now }
    ensures only { (v : ℕ) → 1 ≤ v → at marks.new v ≡ true → (at marks.old v ≡ true) ⊎ AreNaming literals.now v }
{
    for l in literals {
        mark(marks, *l);
    }
}

/// A list of marks, none of which is set.
fn unmarked(alloc: Global, count: usize) -> Result<Vec<bool>, NoMemory>
    ensures count { IfOk result (λ marks. length marks.items ≡ count) }
    ensures none { IfOk result (λ marks. (v : ℕ) → at marks.items v ≡ false) }
{
    let marks = vec![in alloc; false; count]?;
    Ok(marks)
}

/// Marks the variables that the guards and the difference of a leaf stand on.
fn mark_leaf(marks: &mut [bool], leaf: &Leaf)
    requires count { length marks.old ≡ leaf.now.inputs + length leaf.now.gates }
    requires none { (v : ℕ) → at marks.old v ≡ false }
    ensures { AreMarks (leaf_of leaf.now) marks.new }
{
    mark_literals(marks, leaf.guards.as_slice());
    mark(marks, leaf.diff);
    mark_gates(marks, leaf.inputs as usize, leaf.gates.as_slice());
}

/// The variables that the guards and the difference of a leaf stand on.
pub(crate) fn needed(alloc: Global, leaf: &Leaf) -> Result<Vec<bool>, NoMemory>
    ensures { IfOk result (λ marks. AreMarks (leaf_of leaf.now) marks.items) }
{
    let count = leaf.inputs as usize + leaf.gates.as_slice().len();
    let mut marks = unmarked(alloc, count)?;
    mark_leaf(marks.as_mut_slice(), leaf);
    Ok(marks)
}
