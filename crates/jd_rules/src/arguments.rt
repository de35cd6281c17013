//! What gates are whose two arguments are equal or negations of each other: a function that a rule's
//! closure calls.
ghost use Rattle.std.specs.Prelude.{◌≡◌, ◌↔◌, IsTrue};
ghost use Rattle.jd_circuit.specs.Meaning.{HasMeaningOf, IsFromArguments, opposite};

use jd_circuit::{Gate, Lit};

/// Whether two literals are the same.
fn is_same(a: Lit, b: Lit) -> bool
    ensures { IsTrue result ↔ (a ≡ b) }
{
    a == b
}

/// A conjunction of such arguments: the one that both are, or false.
fn alike_and(a: Lit, b: Lit) -> Option<Lit>
    ensures meaning { HasMeaningOf (Gate.And a b) result }
    ensures variable { IsFromArguments (Gate.And a b) result }
{
    if is_same(a, b) {
        return Some(a);
    }
    if is_same(a, b.opposite()) {
        return Some(Lit::Const(false));
    }
    None
}

/// An exclusive or of such arguments: false where they are equal, else true.
fn alike_xor(a: Lit, b: Lit) -> Option<Lit>
    ensures meaning { HasMeaningOf (Gate.Xor a b) result }
    ensures variable { IsFromArguments (Gate.Xor a b) result }
{
    if is_same(a, b) {
        return Some(Lit::Const(false));
    }
    if is_same(a, b.opposite()) {
        return Some(Lit::Const(true));
    }
    None
}

/// A gate whose arguments are equal or negations of each other: an argument or a constant.
pub fn alike(gate: Gate) -> Option<Lit>
    ensures meaning { HasMeaningOf gate result }
    ensures variable { IsFromArguments gate result }
{
    match gate {
        Gate::And(a, b) => alike_and(a, b),
        Gate::Xor(a, b) => alike_xor(a, b),
    }
}
