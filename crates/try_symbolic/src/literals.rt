//! A machine of literals wants the answers before it does a line, and no walk chooses them here.
//! Those that are told come first, and then the constants that the questions' literals are.
ghost use Rattle.std.specs.Prelude.{◌≡◌, ℕ, ◌+◌, ◌^◌, ◌<◌, ◌≤◌, IfOk, IsTrue, ◌↔◌, length};
ghost use Rattle.hp_model.specs.Questions.{IsComplete};
ghost use Rattle.hp_ops.specs.Meaning.{operation};
ghost use Rattle.jd_circuit.specs.Net.{Grows, Net};
ghost use Rattle.jd_symbolic.specs.Machine.{Stands, state_of};

use crate::failures::Failure;
use arrayvec::ArrayVec;
use hp_model::{End, Stop};
use hp_ops::{Jump, Op};
use jd_circuit::{Circuit, Lit, Rewrite};
use jd_symbolic::SymMachine;

/// Answers in order. No operation asks more.
pub type Answers = ArrayVec<bool, 12>;

/// Whether a circuit has room for the gates of a line.
pub fn has_room<W: Rewrite>(c: &Circuit<'_, W>) -> bool
    ensures { IsTrue result ↔ (length c.now.gates < 2 ^ 29) }
{
    c.mark().gates < 1 << 29
}

/// The answer to a question at a place: the told one, or else the constant.
fn answer(told: &[bool], place: usize, asked: Lit) -> Result<bool, Failure> {
    if place < told.len() {
        return Ok(told[place]);
    }
    match asked {
        Lit::Const(yes) => Ok(yes),
        Lit::Var(_) | Lit::Not(_) => Err(Failure::NoConstant),
    }
}

/// The answers to all that an operation asks.
#[tactic(auto, using(jd_symbolic::proofs::Standing::stands_grown))]
pub fn answers<W: Rewrite>(
    machine: &SymMachine,
    c: &mut Circuit<'_, W>,
    op: Op,
    told: &[bool],
) -> Result<Answers, Failure>
    requires stands { Stands c.old machine.now }
    ensures grows { Grows c.old c.new }
    ensures complete { IfOk result (λ given. IsComplete (state_of machine.now) (operation op)
        given.items) }
{
    let mut given = Answers::new();
    for place in 0..13usize {
        if !has_room(c) {
            return Err(Failure::TooManyGates);
        }
        let Some(asked) = machine.sym_asks(c, op, given.as_slice())? else {
            return Ok(given);
        };
        let yes = answer(told, place, asked)?;
        if given.is_full() {
            return Err(Failure::TooManyQuestions);
        }
        given.push(yes);
    }
    Err(Failure::TooManyQuestions)
}

/// The operation of a line. Past the last line stands an RTN.
pub fn op_of_line(machine: &SymMachine, line: u16) -> Op
    requires { 1 ≤ line }
{
    let codes = machine.codes.codes();
    let line = line as usize;
    if line > codes.len() {
        Op::Jump(Jump::Return)
    } else {
        Op::at(codes[line - 1])
    }
}

/// Goes to a line, and no further than past the last.
fn set_line(machine: &mut SymMachine, line: u16)
    requires { 1 ≤ line }
    ensures line { 1 ≤ machine.new.control.line }
    ensures stands { (net : Net) → Stands net machine.old → Stands net machine.new }
{
    let past = machine.codes.codes().len() as u16 + 1;
    machine.control.line = line.min(past);
}

/// Does the next line. An error leaves its number.
#[tactic(auto, using(jd_symbolic::proofs::Standing::stands_grown, hp_control::proofs::FromLine::from_line))]
pub fn do_line<W: Rewrite>(
    machine: &mut SymMachine,
    c: &mut Circuit<'_, W>,
    told: &[bool],
) -> Result<Stop, Failure>
    requires { Stands c.old machine.old }
    ensures { IfOk result (λ _. Stands c.new machine.new) }
{
    let line = machine.control.line;
    if line == 0 {
        return Err(Failure::NoLine);
    }
    let op = op_of_line(machine, line);
    set_line(machine, line.saturating_add(1));
    let given = answers(machine, c, op, told)?;
    if !has_room(c) {
        return Err(Failure::TooManyGates);
    }
    let stop = machine.sym_step(op, c, given.as_slice())?;
    if let Stop::Ended(End::Error(_)) = stop {
        set_line(machine, line);
    }
    Ok(stop)
}
