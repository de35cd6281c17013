//! A circuit, to which gates are added. They are kept in an ordered hashed set, so that a gate that
//! is there already is found again, and the gates after a mark can be cut.
ghost use Rattle.std.specs.Prelude.{◌≡◌, ℕ, ◌+◌, ◌^◌, ◌<◌, ◌≤◌, [], Bool, ◌&&◌, length, take, IfOk, OnOk, OnErr, Some, slice_get, false, true};
ghost use Rattle.std.specs.List.{list_any};
ghost use Rattle.jd_circuit.specs.Meaning.{gate_value, lit_value, simple, xor};
ghost use Rattle.jd_circuit.specs.Net.{Net, Grows, IsGateOf, IsOf, IsWired, Solves, StaysLiteral, adds, after, are_distinct, gate_eq, literal_of, place, variables, with_gate};

use crate::literals::{Gate, Lit};
use crate::rewrite::Rewrite;
use hp_io::NoMemory;
use indexmap::IndexSet;
use std::alloc::Global;
use std::marker::Model;

/// A circuit over inputs. Variables are the inputs from 1 on and then the gates in their order;
/// each gate has literals of variables before its own, no constants, and none stands twice.
#[derive(Drop)]
pub struct Circuit<'r, W> {
    rules: &'r W,
    pub(crate) alloc: Global,
    inputs: u32,
    pub(crate) gates: IndexSet<Gate>,
}

impl<'r, W> Model for Circuit<'r, W> {
    ghost use Rattle.std.specs.Prelude.{◌≡◌, ◌<◌, ◌≤◌, ◌^◌, length, true};
    ghost use Rattle.jd_circuit.specs.Net.{Net, IsWired, are_distinct};

    ghost Value = { Net };

    ghost view = { λ c. record { inputs = c.inputs; gates = c.gates.keys } };

    ghost invariant = { λ c. (c.inputs < 2 ^ 20) × (length c.gates.keys ≤ 2 ^ 30)
        × IsWired c.inputs c.gates.keys × (are_distinct c.gates.keys ≡ true) };
}

/// A number of gates to go back to.
#[derive(Clone, Copy, Debug, PartialEq, Eq)]
pub struct Mark {
    pub gates: usize,
}

// Adds a gate, or finds it, and gives its place.
fn place_of(gates: &mut IndexSet<Gate>, gate: Gate) -> Result<usize, NoMemory>
    ensures stands { IfOk result (λ i. slice_get gates.new.keys i ≡ Some gate) }
    ensures place { IfOk result (λ i. i ≡ place gate gates.old.keys) }
    ensures grows { OnOk result (gates.new.keys ≡ with_gate gate gates.old.keys) }
    ensures within { IfOk result (λ i. i < length gates.new.keys) }
    ensures one_more { length gates.new.keys ≤ length gates.old.keys + 1 }
    ensures err { OnErr result (gates.new.keys ≡ gates.old.keys) }
    ensures absent { OnErr result (list_any (gate_eq gate) gates.old.keys ≡ false) }
{
    match gates.insert_full(gate) {
        Ok((i, _)) => Ok(i),
        Err(_) => Err(NoMemory),
    }
}

// The rules' answer, else the literal that the gate simply is. No rule can answer anything else.
fn known<W: Rewrite>(rules: &W, gate: Gate) -> Option<Lit>
    ensures { result ≡ simple gate }
{
    match rules.rewrite(gate) {
        Some(l) => Some(l),
        None => gate.simple(),
    }
}

impl<'r, W: Rewrite> Circuit<'r, W> {
    /// A circuit without gates, which asks the rules before it adds one. Takes no memory yet.
    pub fn new(alloc: Global, rules: &'r W, inputs: u32) -> Result<Circuit<'r, W>, NoMemory>
        requires { inputs < 2 ^ 20 }
        ensures { IfOk result (λ c. c ≡ record { inputs = inputs; gates = [] }) }
    {
        Ok(Circuit {
            rules,
            alloc,
            inputs,
            gates: IndexSet::new(alloc),
        })
    }

    // A gate's literal: the rules' answer, else one of its arguments or a constant where that is
    // what it is, else its variable.
    fn answer(&mut self, gate: Gate) -> Result<Lit, NoMemory>
        requires arguments { IsGateOf (variables self.old) gate }
        requires room { length self.old.gates < 2 ^ 30 }
        ensures literal { IfOk result (λ l. l ≡ literal_of self.old gate) }
        ensures net { OnOk result (self.new ≡ after self.old gate) }
        ensures of { IfOk result (IsOf self.new) }
        ensures meaning { IfOk result (λ l. (val : ℕ → Bool) → Solves self.new val
            → lit_value val l ≡ gate_value val gate) }
        ensures stays { IfOk result (StaysLiteral self.new gate) }
        ensures grows { Grows self.old self.new }
        ensures one_more { length self.new.gates ≤ length self.old.gates + 1 }
        ensures err { OnErr result (self.new ≡ self.old) }
        ensures absent { OnErr result (adds self.old gate ≡ true) }
    {
        if let Some(l) = known(self.rules, gate) {
            return Ok(l);
        }
        let place = match place_of(&mut self.gates, gate.ordered()) {
            Ok(place) => place,
            Err(refused) => return Err(refused),
        };
        Ok(Lit::Var(self.inputs + place as u32 + 1))
    }

    /// A literal that is true where both are. It adds at most one gate, and none where an argument
    /// is constant, the two have one variable, or the gate is there, in either order. NoMemory
    /// comes only where a gate would be added, and leaves the circuit as it was.
    pub fn and(&mut self, a: Lit, b: Lit) -> Result<Lit, NoMemory>
        requires first { IsOf self.old a }
        requires second { IsOf self.old b }
        requires room { length self.old.gates < 2 ^ 30 }
        ensures literal { IfOk result (λ l. l ≡ literal_of self.old (Gate.And a b)) }
        ensures net { OnOk result (self.new ≡ after self.old (Gate.And a b)) }
        ensures of { IfOk result (IsOf self.new) }
        ensures meaning { IfOk result (λ l. (val : ℕ → Bool) → Solves self.new val
            → lit_value val l ≡ (lit_value val a && lit_value val b)) }
        ensures stays { IfOk result (StaysLiteral self.new (Gate.And a b)) }
        ensures grows { Grows self.old self.new }
        ensures one_more { length self.new.gates ≤ length self.old.gates + 1 }
        ensures err { OnErr result (self.new ≡ self.old) }
        ensures absent { OnErr result (adds self.old (Gate.And a b) ≡ true) }
    {
        self.answer(Gate::And(a, b))
    }

    /// A literal that is true where one of the two is and not the other. Otherwise as `and`.
    pub fn xor(&mut self, a: Lit, b: Lit) -> Result<Lit, NoMemory>
        requires first { IsOf self.old a }
        requires second { IsOf self.old b }
        requires room { length self.old.gates < 2 ^ 30 }
        ensures literal { IfOk result (λ l. l ≡ literal_of self.old (Gate.Xor a b)) }
        ensures net { OnOk result (self.new ≡ after self.old (Gate.Xor a b)) }
        ensures of { IfOk result (IsOf self.new) }
        ensures meaning { IfOk result (λ l. (val : ℕ → Bool) → Solves self.new val
            → lit_value val l ≡ xor (lit_value val a) (lit_value val b)) }
        ensures stays { IfOk result (StaysLiteral self.new (Gate.Xor a b)) }
        ensures grows { Grows self.old self.new }
        ensures one_more { length self.new.gates ≤ length self.old.gates + 1 }
        ensures err { OnErr result (self.new ≡ self.old) }
        ensures absent { OnErr result (adds self.old (Gate.Xor a b) ≡ true) }
    {
        self.answer(Gate::Xor(a, b))
    }

    /// The present number of gates, each of which has literals of the variables before its own, no
    /// constants, and stands once.
    pub fn mark(&self) -> Mark
        ensures gates { result.gates ≡ length self.now.gates }
        ensures wired { IsWired self.now.inputs self.now.gates }
        ensures distinct { are_distinct self.now.gates ≡ true }
    {
        Mark {
            gates: self.gates.len(),
        }
    }

    /// Cuts the list of gates to as many as the mark says, and takes no memory.
    pub fn back_to(&mut self, mark: Mark)
        requires { mark.gates ≤ length self.old.gates }
        ensures { self.new ≡ record self.old { gates = take mark.gates self.old.gates } }
    {
        self.gates.truncate(mark.gates);
    }
}
