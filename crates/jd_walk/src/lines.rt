//! A symbolic machine is told which operation to do. Here it finds that of its line as the
//! calculator does: past the last stands an RTN, and an error leaves its line's number. `runs` goes
//! on by this.
ghost use Rattle.std.specs.Prelude.{◌≡◌, ◌+◌, ◌^◌, ◌<◌, ◌≤◌, length, min, IfOk, OnOk, true};
ghost use Rattle.hp_model.specs.Questions.{are_complete, next_question};
ghost use Rattle.hp_model.specs.Run.{next_operation};
ghost use Rattle.hp_ops.specs.Meaning.{operation};
ghost use Rattle.jd_circuit.specs.Net.{Grows, IsWired};
ghost use Rattle.jd_books.specs.Paths.{line_questions};
ghost use Rattle.jd_questions.specs.Questions.{asked_gates};
ghost use Rattle.jd_symbolic.specs.Machine.{state_of};
ghost use Rattle.jd_walk.specs.NextLine.{LineAsks, LineSteps, StandsAtLine, restored_at};

use hp_model::{End, Stop};
use hp_ops::{Jump, Op};
use jd_circuit::{Circuit, Lit, NoMemory, Rewrite};
use jd_symbolic::SymMachine;

/// The operation of the line to be done next. Past the last line stands an RTN.
fn next_op(machine: &SymMachine) -> Op
    requires { 1 ≤ machine.now.control.line }
    ensures { operation result ≡ next_operation (state_of machine.now) }
{
    let line = machine.control.line as usize;
    let codes = machine.codes.codes();
    if line > codes.len() {
        Op::Jump(Jump::Return)
    } else {
        Op::at(codes[line - 1])
    }
}

/// The number of the line after the one to be done next.
fn following(machine: &SymMachine) -> u16
    requires { machine.now.control.line ≤ length machine.now.codes + 1 }
    ensures { result ≡ min (machine.now.control.line + 1) (length machine.now.codes + 1) }
{
    let past = machine.codes.codes().len() as u16 + 1;
    (machine.control.line + 1).min(past)
}

/// Goes back to a line that erred.
fn restore(machine: &mut SymMachine, line: u16, stop: Stop)
    ensures { machine.new ≡ restored_at line stop machine.old }
{
    if let Stop::Ended(End::Error(_)) = stop {
        machine.control.line = line;
    }
}

/// The literal of the next line's next question after the answers given, and None where it asks no
/// more. The operation finds the number of the line after it; afterwards the machine is as before.
pub fn line_asks<W: Rewrite>(
    machine: &mut SymMachine,
    c: &mut Circuit<'_, W>,
    given: &[bool],
) -> Result<Option<Lit>, NoMemory>
    requires stands { StandsAtLine c.old machine.old }
    requires room { length c.old.gates < 2 ^ 29 }
    ensures machine { machine.new ≡ machine.old }
    ensures grows { Grows c.old c.new }
    ensures wired { OnOk result (IsWired c.new.inputs c.new.gates) }
    ensures more { length c.new.gates ≤ length c.old.gates + asked_gates (next_question (line_questions (state_of machine.old)) given.now) }
    ensures asks { IfOk result (LineAsks c.new machine.old given.now) }
{
    let line = machine.control.line;
    let op = next_op(machine);
    machine.control.line = following(machine);
    let asked = machine.sym_asks(c, op, given);
    machine.control.line = line;
    // `mark` tells that the circuit is wired.
    let _ = c.mark();
    asked
}

/// Does the next line, from the answers to all that it asks. An error leaves the number of the line.
/// After NoMemory the machine is spent.
pub fn line_step<W: Rewrite>(
    machine: &mut SymMachine,
    c: &mut Circuit<'_, W>,
    given: &[bool],
) -> Result<Stop, NoMemory>
    requires stands { StandsAtLine c.old machine.old }
    requires complete { are_complete (line_questions (state_of machine.old)) given.now ≡ true }
    requires room { length c.old.gates < 2 ^ 29 }
    ensures grows { Grows c.old c.new }
    ensures wired { OnOk result (IsWired c.new.inputs c.new.gates) }
    ensures more { length c.new.gates ≤ length c.old.gates + 2 ^ 17 }
    ensures steps { IfOk result (LineSteps c.new machine.old machine.new given.now) }
{
    let line = machine.control.line;
    let op = next_op(machine);
    machine.control.line = following(machine);
    let stop = machine.sym_step(op, c, given)?;
    restore(machine, line, stop);
    // `mark` tells that the circuit is wired.
    let _ = c.mark();
    Ok(stop)
}
