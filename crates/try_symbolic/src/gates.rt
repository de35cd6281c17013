//! What an operation costs where the whole start is free: the gates of its questions and, in
//! another circuit, of the step after each was answered with no. Two ways to ten times X stand
//! beside it.

use crate::failures::Failure;
use crate::literals::{answers, do_line, op_of_line};
use crate::operations::is_like_another;
use crate::runs::problem_of_text;
use hp_core::Stop;
use hp_ops::Op;
use jd_circuit::{Circuit, NoRules};
use jd_problem::Problem;
use jd_symbolic::SymMachine;
use std::alloc::{AllocError, Global};
use std::io;

/// The modes by their numbers in a problem.
const MODES: [u8; 3] = [0, 1, 2];

const SIZES: [u8; 2] = [16, 64];

/// The gates of an operation's questions, and of what it does where each was answered with no.
#[derive(Clone, Copy, PartialEq, Eq)]
struct Gates {
    questions: usize,
    step: usize,
}

/// A problem whose starts are free, with a routine's lines.
fn free_problem(alloc: Global, bits: u8, mode: u8, lines: &str) -> Result<Problem, Failure> {
    let text = format!(in alloc;
        "problem 2\nword {bits}\nmode {mode}\nbase 16\nmemory 203\nsteps 1\npaths 1\nbudget 1\nobserve\nfirst\n{lines}\nsecond\nend\n"
    )?;
    problem_of_text(text.as_str())
}

/// The gates of the operation at a problem's first line.
fn of_problem(alloc: Global, problem: &Problem) -> Result<Gates, Failure> {
    let mut asked = Circuit::new(alloc, &NoRules, problem.free_bits())?;
    let mut machine = SymMachine::begin(alloc, &mut asked, problem, false)?;
    let op = op_of_line(&machine, 1);
    let mut done = Circuit::new(alloc, &NoRules, problem.free_bits())?;
    let given = answers(&machine, &mut asked, op, &[false; 12])?;
    let _ = machine.sym_step(op, &mut done, given.as_slice())?;
    Ok(Gates {
        questions: asked.mark().gates,
        step: done.mark().gates,
    })
}

/// The gates of an operation at a size, in the three modes.
fn of_operation(alloc: Global, op: Op, bits: u8) -> Result<[Gates; 3], Failure> {
    let mut gates = [Gates {
        questions: 0,
        step: 0,
    }; 3];
    for i in 0..3usize {
        let problem = free_problem(alloc, bits, MODES[i], op.text().as_str())?;
        gates[i] = of_problem(alloc, &problem)?;
    }
    Ok(gates)
}

/// Prints the gates of an operation at a size where it adds some, and says whether it does.
fn print_gates(rt: &impl Print, name: &str, bits: u8, gates: [Gates; 3]) -> io::Result<bool> {
    let [unsigned, ones, twos] = gates;
    let steps = (unsigned.step, ones.step, twos.step);
    let questions = (unsigned.questions, ones.questions, twos.questions);
    if steps == (0, 0, 0) && questions == (0, 0, 0) {
        return Ok(false);
    }
    println!(rt; "{name} at {bits} bits {steps:?} questions {questions:?}")?;
    Ok(true)
}

/// Prints the gates of an operation that adds some, and says whether it does.
fn print_operation(rt: &impl Print, alloc: Global, op: Op) -> io::Result<bool> {
    let name = op.text();
    let name = name.as_str();
    let mut adds = false;
    for bits in SIZES {
        match of_operation(alloc, op, bits) {
            Ok(gates) => adds |= print_gates(rt, name, bits, gates)?,
            Err(failure) => println!(rt; "{failure:?}")?,
        }
    }
    Ok(adds)
}

/// The gates of a run of free starts.
fn of_run(alloc: Global, problem: &Problem) -> Result<usize, Failure> {
    let mut c = Circuit::new(alloc, &NoRules, problem.free_bits())?;
    let mut machine = SymMachine::begin(alloc, &mut c, problem, false)?;
    for _line in 0..24u8 {
        if do_line(&mut machine, &mut c, &[])? != Stop::Go {
            break;
        }
    }
    Ok(c.mark().gates)
}

/// The gates of a routine of unsigned words of 64 bits.
fn of_lines(alloc: Global, lines: &str) -> Result<usize, Failure> {
    let problem = free_problem(alloc, 64, 0, lines)?;
    of_run(alloc, &problem)
}

/// Prints the gates of a routine that makes ten times X.
fn print_ten_times(rt: &impl Print, alloc: Global, way: &str, lines: &str) -> io::Result<()> {
    match of_lines(alloc, lines) {
        Ok(gates) => println!(rt; "ten times X at 64 bits by {way} {gates}"),
        Err(failure) => println!(rt; "{failure:?}"),
    }
}

/// Prints the names of the operations that add no gate.
fn print_names(rt: &impl Print, names: &str) -> io::Result<()> {
    println!(rt; "no gate is added by{names}")
}

/// Adds an operation's name.
fn add_name(names: &mut String, op: Op) -> Result<(), AllocError> {
    names.push_str(" ")?;
    names.push_str(op.text().as_str())
}

/// Prints the gates of each operation, unsigned, in one's and in two's complement. Of operations that
/// differ by a number alone one is told.
pub fn print(rt: &impl Print, alloc: Global) -> io::Result<()> {
    let mut names = String::new(alloc);
    for code in 0..225u8 {
        let op = Op::at(code);
        if is_like_another(op) {
            continue;
        }
        if !print_operation(rt, alloc, op)? {
            add_name(&mut names, op)?;
        }
    }
    print_names(rt, names.as_str())?;
    print_ten_times(rt, alloc, "shifts and a sum", "SL\nENTER\nSL\nSL\n+")?;
    print_ten_times(rt, alloc, "a digit and a product", "A\n*")
}
