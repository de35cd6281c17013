//! A leaf in the form that the judge's prover and the check of proof lines take: three or four
//! clauses for each gate, and at most one for each guard and for the difference.
ghost use Rattle.std.specs.Prelude.{◌≡◌, ◌-◌, ◌<◌, ◌^◌, ◌++◌, ◌∷◌, [], IfOk, OnOk};
ghost use Rattle.jd_logic.specs.Literals.{IsLiteral};
ghost use Rattle.jd_circuit.specs.Net.{IsArgument, IsArgumentGate, IsLit};
ghost use Rattle.jd_books.specs.Clauses.{number_of, gate_clauses, truth_clauses};
ghost use Rattle.jd_books.specs.Leaves.{clauses_of};
ghost use Rattle.jd_leaves.specs.Views.{leaf_of};

use crate::leaf::Leaf;
use hp_io::NoMemory;
use jd_circuit::{Gate, Lit};
use jd_lrat::Clauses;
use std::alloc::Global;

/// The number of a literal of a variable.
fn number(l: Lit) -> i32
    requires { IsArgument (2 ^ 31 - 1) l }
    ensures number { result ≡ number_of l }
    ensures literal { IsLiteral result }
{
    match l {
        Lit::Const(_) => 1,
        Lit::Var(v) => v as i32,
        Lit::Not(v) => -(v as i32),
    }
}

/// Adds a clause of two literals.
fn push_two(clauses: &mut Clauses, a: Lit, b: Lit) -> Result<(), NoMemory>
    requires first { IsArgument (2 ^ 31 - 1) a }
    requires second { IsArgument (2 ^ 31 - 1) b }
    ensures { OnOk result (clauses.new ≡ clauses.old ++ (number_of a ∷ number_of b ∷ []) ∷ []) }
{
    clauses.push(&[number(a), number(b)])
}

/// Adds a clause of three literals.
fn push_three(clauses: &mut Clauses, a: Lit, b: Lit, c: Lit) -> Result<(), NoMemory>
    requires first { IsArgument (2 ^ 31 - 1) a }
    requires second { IsArgument (2 ^ 31 - 1) b }
    requires third { IsArgument (2 ^ 31 - 1) c }
    ensures { OnOk result (clauses.new ≡ clauses.old ++ (number_of a ∷ number_of b ∷ number_of c ∷ []) ∷ []) }
{
    clauses.push(&[number(a), number(b), number(c)])
}

/// Adds the clauses that say that a variable is a gate.
fn push_gate(clauses: &mut Clauses, own: u32, gate: Gate) -> Result<(), NoMemory>
    requires low { 0 < own }
    requires high { own < 2 ^ 31 }
    requires plain { IsArgumentGate (2 ^ 31 - 1) gate }
    ensures { OnOk result (clauses.new ≡ clauses.old ++ gate_clauses own gate) }
{
    let yes = Lit::Var(own);
    let no = Lit::Not(own);
    match gate {
        Gate::And(a, b) => {
            push_two(clauses, no, a)?;
            push_two(clauses, no, b)?;
            push_three(clauses, yes, a.opposite(), b.opposite())?;
            Ok(())
        }
        Gate::Xor(a, b) => {
            push_three(clauses, no, a, b)?;
            push_three(clauses, no, a.opposite(), b.opposite())?;
            push_three(clauses, yes, a.opposite(), b)?;
            push_three(clauses, yes, a, b.opposite())?;
            Ok(())
        }
    }
}

/// Adds the clauses that say that a literal is true.
fn push_truth(clauses: &mut Clauses, l: Lit) -> Result<(), NoMemory>
    requires { IsLit (2 ^ 31 - 1) l }
    ensures { OnOk result (clauses.new ≡ clauses.old ++ truth_clauses l) }
{
    match l {
        Lit::Const(true) => Ok(()),
        Lit::Const(false) => clauses.push(&[]),
        Lit::Var(v) => clauses.push(&[number(Lit::Var(v))]),
        Lit::Not(v) => clauses.push(&[number(Lit::Not(v))]),
    }
}

impl Leaf {
    /// The clauses of the leaf, in their order.
    pub fn clauses(&self, alloc: Global) -> Result<Clauses, NoMemory>
        ensures { IfOk result (λ cs. cs ≡ clauses_of (leaf_of self.now)) }
    {
        let mut clauses = Clauses::new(alloc);
        let mut own = self.inputs;
        for gate in self.gates.as_slice() {
            own += 1;
            push_gate(&mut clauses, own, *gate)?;
        }
        for guard in self.guards.as_slice() {
            push_truth(&mut clauses, *guard)?;
        }
        push_truth(&mut clauses, self.diff)?;
        Ok(clauses)
    }
}
