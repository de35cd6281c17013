//! A rule may change which gates a circuit adds, but not what a literal means. Each gate over two
//! inputs is asked under four sets, one with a rule that never answers, and its values compared
//! with those of none.
ghost use Rattle.std.specs.Prelude.{◌≡◌};
ghost use Rattle.jd_circuit.specs.Net.{IsLit, IsOf};

use jd_circuit::{Bits, Circuit, Gate, Lit, NoMemory, NoRules, Rewrite};
use jd_rules::{Rule, RuleSet, alike, constant_and, constant_xor};
use std::alloc::{AllocError, Global};

// One of the six literals over two inputs.
fn literal(i: usize) -> Lit
    ensures { IsLit 2 result }
{
    match i {
        0 => Lit::Const(false),
        1 => Lit::Const(true),
        2 => Lit::Var(1),
        3 => Lit::Not(1),
        4 => Lit::Var(2),
        _ => Lit::Not(2),
    }
}

// A literal's value on two bits.
fn value<W: Rewrite>(
    circuit: &Circuit<'_, W>,
    alloc: Global,
    l: Lit,
    bits: [bool; 2],
) -> Result<bool, NoMemory>
    requires inputs { circuit.now.inputs ≡ 2 }
    requires of { IsOf circuit.now l }
{
    match Vec::from_slice(alloc, &bits) {
        Ok(bits) => circuit.eval(&Bits::new(bits), l),
        Err(_) => Err(NoMemory),
    }
}

// A gate's values on the four lists of two bits.
fn row<W: Rewrite>(
    alloc: Global,
    rules: &W,
    is_and: bool,
    a: Lit,
    b: Lit,
) -> Result<[bool; 4], NoMemory>
    requires first { IsLit 2 a }
    requires second { IsLit 2 b }
{
    let mut circuit = Circuit::new(alloc, rules, 2)?;
    let l = if is_and {
        circuit.and(a, b)?
    } else {
        circuit.xor(a, b)?
    };
    Ok([
        value(&circuit, alloc, l, [false, false])?,
        value(&circuit, alloc, l, [false, true])?,
        value(&circuit, alloc, l, [true, false])?,
        value(&circuit, alloc, l, [true, true])?,
    ])
}

// The values of each conjunction and each exclusive or of two of the six literals.
fn table<W: Rewrite>(alloc: Global, rules: &W) -> Result<Vec<bool>, AllocError> {
    let mut values = Vec::new(alloc);
    for i in 0..72usize {
        match row(alloc, rules, i < 36, literal(i / 6 % 6), literal(i % 6)) {
            Ok(four) => {
                for b in four {
                    values.push(b)?;
                }
            }
            Err(_) => return Err(AllocError),
        }
    }
    Ok(values)
}

/// Whether the empty set, the program's three rules, one of them and a rule that never answers give
/// the values that no rules give.
pub fn agree(alloc: Global) -> Result<bool, AllocError> {
    let wanted = table(alloc, &NoRules)?;
    let none = table(alloc, &RuleSet::new(Vec::new(alloc)))?;
    let mut rules: Vec<Rule> = Vec::new(alloc);
    rules.push(Rule::new(Box::new(alloc, |gate: Gate| constant_and(gate))?))?;
    rules.push(Rule::new(Box::new(alloc, |gate: Gate| constant_xor(gate))?))?;
    rules.push(Rule::new(Box::new(alloc, |gate: Gate| alike(gate))?))?;
    let three = table(alloc, &RuleSet::new(rules))?;
    let mut rules: Vec<Rule> = Vec::new(alloc);
    rules.push(Rule::new(Box::new(alloc, |gate: Gate| constant_xor(gate))?))?;
    let one = table(alloc, &RuleSet::new(rules))?;
    let mut rules: Vec<Rule> = Vec::new(alloc);
    rules.push(Rule::new(Box::new(alloc, |_gate: Gate| None)?))?;
    let silent = table(alloc, &RuleSet::new(rules))?;
    let wanted = wanted.as_slice();
    Ok(
        none.as_slice() == wanted
            && three.as_slice() == wanted
            && one.as_slice() == wanted
            && silent.as_slice() == wanted,
    )
}
