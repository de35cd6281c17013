//! Each operation at seven sizes and in three modes, each time from four starts. Of operations that
//! differ by a number alone, but for registers, one is tried so, and the others at 16 bits.
use crate::cases::Case;
use crate::comparisons::Difference;
use crate::failures::Failure;
use crate::runs::{problem_of_text, run_both};
use hp_ops::{Flags, Jump, Op, Place, Registers, Target, Windows};
use hp_words::{Mode, WordSize};
use jd_problem::Routine;
use std::alloc::Global;
use std::io;

const SIZES: [u8; 7] = [1, 4, 6, 8, 16, 63, 64];

const MODES: [Mode; 3] = [Mode::Unsigned, Mode::Ones, Mode::Twos];

/// From how many starts an operation is tried at a size and in a mode.
const STARTS: u8 = 4;

/// How many of an operation's cases are as stepped, and of how many.
#[derive(Clone, Copy)]
struct Tally {
    good: u32,
    cases: u32,
}

/// The difference of a case, if it has one.
fn difference(alloc: Global, case: Case) -> Result<Option<Difference>, Failure> {
    let text = case.text(alloc)?;
    let mut problem = problem_of_text(text.as_str())?;
    problem.first = case.routine();
    let ran = run_both(alloc, &problem)?;
    Ok(ran.difference)
}

/// Prints a routine's lines.
fn print_routine(rt: &impl Print, routine: &Routine) -> io::Result<()> {
    for code in routine.codes() {
        if let Some(op) = Op::of_code(*code) {
            let text = op.text();
            let text = text.as_str();
            println!(rt; "{text}")?;
        }
    }
    Ok(())
}

/// Tries a case, and prints the first of an operation that isn't as stepped.
fn try_case(rt: &impl Print, alloc: Global, case: Case, tally: &mut Tally) -> io::Result<()> {
    let outcome = difference(alloc, case);
    let first = tally.good == tally.cases;
    tally.cases = tally.cases.saturating_add(1);
    match outcome {
        Ok(None) => tally.good = tally.good.saturating_add(1),
        Ok(Some(found)) if first => {
            let text = case.text(alloc)?;
            println!(rt; "{found:?}\n{text}")?;
            print_routine(rt, &case.routine())?;
        }
        Err(failure) if first => println!(rt; "{failure:?}")?,
        _ => {}
    }
    Ok(())
}

/// Tries an operation at a size, in each mode and from each start.
fn try_size(
    rt: &impl Print,
    alloc: Global,
    op: Op,
    size: WordSize,
    tally: &mut Tally,
) -> io::Result<()> {
    for number in 0..STARTS {
        for mode in MODES {
            let case = Case {
                op,
                size,
                mode,
                number,
            };
            try_case(rt, alloc, case, tally)?;
        }
    }
    Ok(())
}

/// Whether an operation differs by its number alone from one that is tried at every size.
pub fn is_like_another(op: Op) -> bool {
    match op {
        Op::Digit(digit) => digit.value != 5,
        Op::Flags(Flags::Set(flag))
        | Op::Flags(Flags::Clear(flag))
        | Op::Flags(Flags::Test(flag)) => { flag.number != 0 }
        Op::Jump(Jump::Label(label))
        | Op::Jump(Jump::Goto(Target::Label(label)))
        | Op::Jump(Jump::Gosub(Target::Label(label))) => label.value != 0,
        Op::Registers(Registers::Store(Place::Direct(register)))
        | Op::Registers(Registers::Recall(Place::Direct(register))) => register.number != 0,
        Op::Windows(Windows::Show(window)) => window.number != 0,
        _ => false,
    }
}

/// Whether an operation is tried at a size. A register is there or not by its number and the size, so
/// those are tried at each.
fn is_tried_at(op: Op, bits: u8) -> bool {
    match op {
        Op::Registers(_) => true,
        _ => bits == 16 || !is_like_another(op),
    }
}

/// Tries an operation, and prints how many of its cases are as stepped.
fn try_operation(rt: &impl Print, alloc: Global, op: Op) -> io::Result<()> {
    let mut tally = Tally { good: 0, cases: 0 };
    for bits in SIZES {
        if is_tried_at(op, bits) {
            if let Some(size) = WordSize::new(bits) {
                try_size(rt, alloc, op, size, &mut tally)?;
            }
        }
    }
    let text = op.text();
    let name = text.as_str();
    let good = tally.good;
    if tally.cases == good {
        println!(rt; "{name} {good} as stepped")
    } else {
        let cases = tally.cases;
        println!(rt; "{name} {good} of {cases} as stepped")
    }
}

/// Tries each of the 225 operations.
pub fn print(rt: &impl Print, alloc: Global) -> io::Result<()> {
    for code in 0..225u8 {
        try_operation(rt, alloc, Op::at(code))?;
    }
    Ok(())
}
