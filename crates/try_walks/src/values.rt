//! What a start makes of a leaf's guards and difference, which `starts` needs for its answers.
//! Gates are worked out in their order, from input bits; one that names a later variable is an
//! error.
use anyhow::{Result, bail};
use jd_circuit::{Gate, Lit};
use std::alloc::Global;

/// The value of a variable. Variable 1 has the first value.
fn variable(values: &[bool], v: u32) -> Option<bool> {
    let place = v.checked_sub(1)?;
    values.get(place as usize).copied()
}

/// The value of a literal, if its variable has one.
pub fn value(values: &[bool], l: Lit) -> Option<bool> {
    match l {
        Lit::Const(b) => Some(b),
        Lit::Var(v) => variable(values, v),
        Lit::Not(v) => variable(values, v).map(|b| !b),
    }
}

/// The value of a gate, if its arguments have one.
fn gate_value(values: &[bool], gate: Gate) -> Option<bool> {
    match gate {
        Gate::And(a, b) => Some(value(values, a)? & value(values, b)?),
        Gate::Xor(a, b) => Some(value(values, a)? ^ value(values, b)?),
    }
}

/// The values of the inputs and of the gates, in the order of their variables.
pub fn values(alloc: Global, gates: &[Gate], inputs: &[bool]) -> Result<Vec<bool>> {
    let mut values = Vec::from_slice(alloc, inputs)?;
    for gate in gates {
        match gate_value(values.as_slice(), *gate) {
            Some(value) => values.push(value)?,
            None => bail!("a gate names no variable before its own"),
        }
    }
    Ok(values)
}
