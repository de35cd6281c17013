//! The needed gates in their order, with numbers that leave no gap behind the inputs. It relies on
//! marks that are closed: where a gate is kept, its arguments are kept too and have their numbers
//! already.
ghost use Rattle.std.specs.Prelude.{◌≡◌, ◌+◌, ◌<◌, ◌^◌, [], ◌∷◌, ◌++◌, All, IfOk, OnOk, length, map};
ghost use Rattle.jd_circuit.specs.Net.{IsLit, IsGateOf, IsWired};
ghost use Rattle.jd_cones.specs.Marks.{IsClosed};
ghost use Rattle.jd_cones.specs.Renaming.{renamed, renamed_gate, number_after, gates_after, AreOwn, IsRenaming};

use hp_io::NoMemory;
use jd_circuit::{Gate, Lit};
use std::alloc::Global;

/// New numbers of the variables so far, in their order, and the gates that are kept. The number of a
/// variable that isn't kept is 0.
#[derive(Drop)]
pub(crate) struct Renumbering {
    pub(crate) numbers: Vec<u32>,
    pub(crate) gates: Vec<Gate>,
}

/// A literal of the variable's new number.
pub(crate) fn renamed(numbers: &[u32], l: Lit) -> Lit
    requires { IsLit (length numbers.now) l }
    ensures { result ≡ renamed numbers.now l }
{
    match l {
        Lit::Const(b) => Lit::Const(b),
        Lit::Var(v) => Lit::Var(numbers[v as usize - 1]),
        Lit::Not(v) => Lit::Not(numbers[v as usize - 1]),
    }
}

/// A gate whose arguments have their new numbers.
fn renamed_gate(numbers: &[u32], gate: Gate) -> Gate
    requires { IsGateOf (length numbers.now) gate }
    ensures { result ≡ renamed_gate numbers.now gate }
{
    match gate {
        Gate::And(a, b) => Gate::And(renamed(numbers, a), renamed(numbers, b)),
        Gate::Xor(a, b) => Gate::Xor(renamed(numbers, a), renamed(numbers, b)),
    }
}

/// Literals of the variables' new numbers.
pub(crate) fn renamed_literals(
    alloc: Global,
    numbers: &[u32],
    literals: &[Lit],
) -> Result<Vec<Lit>, NoMemory>
    requires { All (IsLit (length numbers.now)) literals.now }
    ensures { IfOk result (λ ls. ls.items ≡ map (renamed numbers.now) literals.now) }
{
    let mut list = Vec::new(alloc);
    for l in literals {
        list.push(renamed(numbers, *l))?;
    }
    Ok(list)
}

/// The numbers of the inputs, which stay.
fn input_numbers(alloc: Global, inputs: u32) -> Result<Vec<u32>, NoMemory>
    ensures { IfOk result (λ numbers. AreOwn inputs numbers.items) }
{
    let mut numbers = Vec::new(alloc);
    for before in 0..inputs {
        numbers.push(before + 1)?;
    }
    Ok(numbers)
}

impl Renumbering {
    /// Adds a gate where it is needed, and the number of its variable.
    fn pass(&mut self, inputs: u32, gate: Gate, is_needed: bool) -> Result<(), NoMemory>
        requires gate { IsGateOf (length self.old.numbers.items) gate }
        requires few { inputs + length self.old.gates.items + 1 < 2 ^ 31 }
        ensures numbers { OnOk result (self.new.numbers.items ≡ self.old.numbers.items ++ number_after inputs self.old.gates.items is_needed ∷ []) }
        ensures gates { OnOk result (self.new.gates.items ≡ gates_after self.old.numbers.items self.old.gates.items gate is_needed) }
    {
        if !is_needed {
            self.numbers.push(0)?;
            return Ok(());
        }
        let kept = renamed_gate(self.numbers.as_slice(), gate);
        self.gates.push(kept)?;
        self.numbers.push(inputs + self.gates.len() as u32)?;
        Ok(())
    }
}

/// The needed gates of a leaf, numbered anew.
pub(crate) fn renumbered(
    alloc: Global,
    inputs: u32,
    gates: &[Gate],
    marks: &[bool],
) -> Result<Renumbering, NoMemory>
    requires few { inputs + length gates.now < 2 ^ 31 }
    requires wired { IsWired inputs gates.now }
    requires all { length marks.now ≡ inputs + length gates.now }
    requires closed { IsClosed inputs gates.now 0 marks.now }
    ensures { IfOk result (λ r. IsRenaming inputs gates.now marks.now (length gates.now) r.numbers.items r.gates.items) }
{
    let mut renumbering = Renumbering {
        numbers: input_numbers(alloc, inputs)?,
        gates: Vec::new(alloc),
    };
    for place in 0..gates.len() {
        renumbering.pass(inputs, gates[place], marks[inputs as usize + place])?;
    }
    Ok(renumbering)
}
