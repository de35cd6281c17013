//! Whether a circuit keeps each pair of arguments once, whatever its rules: a conjunction asked again
//! or turned round is the same literal, and back at the mark no gate is left. `main` prints all of it
//! as one line.
use jd_circuit::{Bits, Circuit, Gate, Lit, NoMemory, Rewrite};
use std::alloc::Global;

/// The literals of a conjunction asked for twice, of one in the other order and of an exclusive or
/// of equal arguments; the conjunction's value on two true bits; the gates, and after going back.
pub fn circuit<W: Rewrite>(
    alloc: Global,
    rules: &W,
) -> Result<(Lit, Lit, Lit, Lit, bool, usize, usize), NoMemory> {
    let mut circuit = Circuit::new(alloc, rules, 2)?;
    let start = circuit.mark();
    let both = circuit.and(Lit::Var(1), Lit::Var(2))?;
    let again = circuit.and(Lit::Var(1), Lit::Var(2))?;
    let turned = circuit.and(Lit::Var(2), Lit::Var(1))?;
    let differ = circuit.xor(Lit::Var(1), Lit::Var(1))?;
    let bits = match Vec::from_slice(alloc, &[true, true]) {
        Ok(bits) => Bits::new(bits),
        Err(_) => return Err(NoMemory),
    };
    let value = circuit.eval(&bits, both)?;
    let gates = circuit.gates()?.as_slice().len();
    circuit.back_to(start);
    let left = circuit.gates()?.as_slice().len();
    Ok((both, again, turned, differ, value, gates, left))
}
