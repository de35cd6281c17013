//! Reading a circuit: what its literals mean on a list of bits, and its gates as a list.
ghost use Rattle.std.specs.Prelude.{◌≡◌, ℕ, ◌-◌, ◌+◌, ◌<◌, ◌≤◌, ◌++◌, ◌∷◌, [], Bool, length, IfOk, OnOk, true};
ghost use Rattle.jd_circuit.specs.Meaning.{gate_value, lit_value, xor};
ghost use Rattle.jd_circuit.specs.Net.{IsOf, IsLit, IsWired, IsArgumentGate, are_distinct, at, eval, values_of};

use crate::circuit::Circuit;
use crate::gates::Gates;
use crate::literals::{Gate, Lit};
use crate::rewrite::Rewrite;
use hp_io::NoMemory;
use jd_bits::Bits;

// A literal's value, from those of the variables.
fn lit_value(values: &[bool], l: Lit) -> bool
    requires { IsLit (length values.now) l }
    ensures { result ≡ lit_value (at values.now) l }
{
    match l {
        Lit::Const(b) => b,
        Lit::Var(v) => values[v as usize - 1],
        Lit::Not(v) => !values[v as usize - 1],
    }
}

// A gate's value, from those of the variables.
fn gate_value(values: &[bool], gate: Gate) -> bool
    requires { IsArgumentGate (length values.now) gate }
    ensures { result ≡ gate_value (at values.now) gate }
{
    match gate {
        Gate::And(a, b) => lit_value(values, a) && lit_value(values, b),
        Gate::Xor(a, b) => lit_value(values, a) ^ lit_value(values, b),
    }
}

// Adds the gates' values to those of the inputs.
fn push_values(values: &mut Vec<bool>, gates: &[Gate]) -> Result<(), NoMemory>
    requires { IsWired (length values.old.items) gates.now }
    ensures { OnOk result (values.new.items ≡ values_of values.old.items gates.now) }
{
    for gate in gates {
        let value = gate_value(values.as_slice(), *gate);
        if values.push(value).is_err() {
            return Err(NoMemory);
        }
    }
    Ok(())
}

impl<'r, W: Rewrite> Circuit<'r, W> {
    /// The meaning of a literal on a list of bits, one for each input. Takes time and memory for
    /// every gate.
    pub fn eval(&self, bits: &Bits, a: Lit) -> Result<bool, NoMemory>
        requires bits { length bits.now ≡ self.now.inputs }
        requires of { IsOf self.now a }
        ensures { IfOk result (λ b. b ≡ eval self.now bits.now a) }
    {
        let mut values = match Vec::from_slice(self.alloc, bits.as_slice()) {
            Ok(values) => values,
            Err(_) => return Err(NoMemory),
        };
        push_values(&mut values, self.gates.as_slice())?;
        Ok(lit_value(values.as_slice(), a))
    }

    /// The gates in the order of their numbers. Each has literals of the variables before its own,
    /// no constants, and stands once.
    pub fn gates(&self) -> Result<Gates, NoMemory>
        ensures gates { IfOk result (λ gates. gates ≡ self.now.gates) }
        ensures wired { IsWired self.now.inputs self.now.gates }
        ensures distinct { are_distinct self.now.gates ≡ true }
    {
        match Vec::from_slice(self.alloc, self.gates.as_slice()) {
            Ok(gates) => Ok(Gates::new(gates)),
            Err(_) => Err(NoMemory),
        }
    }
}
