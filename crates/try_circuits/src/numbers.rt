//! The calls on numbers of literals, asked on constants of 1 to 128 bits, so that their answers are
//! numbers too. `told.py` works out the same rows, and its lines are to be the ones printed here.
ghost use Rattle.std.specs.Prelude.{◌≡◌, ◌<◌, ◌≤◌, ◌^◌, length};
ghost use Rattle.jd_vectors.specs.Number.{AreOf};

use crate::words::{bit, number, word};
use jd_circuit::{Circuit, Lit, NoMemory, NoRules};
use jd_muldiv::{div_lits, mul_lits, root_lits};
use jd_shifts::{left_justify, less, negate, ones, rotate_left, shift_left};
use jd_vectors::{Bitwise, Lits, add_lits, join_lits, same, select};
use std::alloc::Global;
use std::io;

#[derive(Clone, Copy, Debug, PartialEq, Eq)]
enum Call {
    Add,
    AddAndOne,
    And,
    Or,
    Xor,
    Negate,
    Select,
    Less,
    Same,
    ShiftLeft,
    RotateLeft,
    Ones,
    Justify,
    Multiply,
    Divide,
    Root,
}

const CALLS: [Call; 16] = [
    Call::Add,
    Call::AddAndOne,
    Call::And,
    Call::Or,
    Call::Xor,
    Call::Negate,
    Call::Select,
    Call::Less,
    Call::Same,
    Call::ShiftLeft,
    Call::RotateLeft,
    Call::Ones,
    Call::Justify,
    Call::Multiply,
    Call::Divide,
    Call::Root,
];

// The answer of a call that answers a number.
fn one(answer: Result<Lits, NoMemory>) -> Result<(u128, u128), NoMemory> {
    let lits = answer?;
    Ok((number(&lits), 0))
}

// The answer of a call that answers two numbers.
fn two(answer: Result<(Lits, Lits), NoMemory>) -> Result<(u128, u128), NoMemory> {
    let (first, second) = answer?;
    Ok((number(&first), number(&second)))
}

// The answer of a sum: its number and its carry.
fn sum(answer: Result<(Lits, Lit), NoMemory>) -> Result<(u128, u128), NoMemory> {
    let (sum, carry) = answer?;
    Ok((number(&sum), bit(carry)))
}

// The answer of a call that answers a literal.
fn single(answer: Result<Lit, NoMemory>) -> Result<(u128, u128), NoMemory> {
    let l = answer?;
    Ok((bit(l), 0))
}

// The two numbers that a call answers, and 0 for one that it hasn't.
fn answers(
    c: &mut Circuit<'_, NoRules>,
    call: Call,
    a: &Lits,
    b: &Lits,
    places: &Lits,
) -> Result<(u128, u128), NoMemory>
    requires some { 1 ≤ length a.now }
    requires length { length a.now ≡ length b.now }
    requires places { length places.now ≡ 8 }
    requires first { AreOf c.old a.now }
    requires second { AreOf c.old b.now }
    requires third { AreOf c.old places.now }
    requires room { length c.old.gates < 2 ^ 29 }
{
    let size = a.len();
    match call {
        Call::Add => sum(add_lits(c, a, b, Lit::Const(false))),
        Call::AddAndOne => sum(add_lits(c, a, b, Lit::Const(true))),
        Call::And => one(join_lits(c, Bitwise::And, a, b)),
        Call::Or => one(join_lits(c, Bitwise::Or, a, b)),
        Call::Xor => one(join_lits(c, Bitwise::Xor, a, b)),
        Call::Negate => one(negate(c, a)),
        Call::Select => one(select(c, Lit::Const(true), a, b)),
        Call::Less => single(less(c, a, b)),
        Call::Same => single(same(c, a, b)),
        Call::ShiftLeft => one(shift_left(c, a, places)),
        Call::RotateLeft => one(rotate_left(c, a, places)),
        Call::Ones => one(ones(c, a)),
        Call::Justify => two(left_justify(c, a)),
        Call::Multiply => one(mul_lits(c, a, &b.resized(size.min(128 - size)))),
        Call::Divide => two(div_lits(c, a, &b.resized(size.min(127)))),
        Call::Root => two(root_lits(c, a)),
    }
}

// What a call answers on words of one size, and on so many places.
fn asked(
    alloc: Global,
    call: Call,
    size: usize,
    x: u128,
    y: u128,
    places: u128,
) -> Result<(u128, u128), NoMemory>
    requires some { 1 ≤ size }
    requires most { size ≤ 128 }
{
    let mut c = Circuit::new(alloc, &NoRules, 0)?;
    answers(
        &mut c,
        call,
        &word(size, x),
        &word(size, y),
        &word(8, places),
    )
}

// Two words of a size, and a count of places.
struct Row {
    size: usize,
    x: u128,
    y: u128,
    places: u128,
}

const ROWS: [Row; 17] = [
    Row {
        size: 1,
        x: 1,
        y: 1,
        places: 1,
    },
    Row {
        size: 1,
        x: 0,
        y: 1,
        places: 255,
    },
    Row {
        size: 3,
        x: 5,
        y: 3,
        places: 2,
    },
    Row {
        size: 3,
        x: 6,
        y: 7,
        places: 200,
    },
    Row {
        size: 4,
        x: 9,
        y: 8,
        places: 1,
    },
    Row {
        size: 4,
        x: 5,
        y: 3,
        places: 1,
    },
    Row {
        size: 4,
        x: 3,
        y: 5,
        places: 1,
    },
    Row {
        size: 4,
        x: 11,
        y: 6,
        places: 7,
    },
    Row {
        size: 4,
        x: 10,
        y: 3,
        places: 5,
    },
    Row {
        size: 6,
        x: 43,
        y: 6,
        places: 1,
    },
    Row {
        size: 8,
        x: 0,
        y: 7,
        places: 3,
    },
    Row {
        size: 8,
        x: 5,
        y: 203,
        places: 9,
    },
    Row {
        size: 65,
        x: 0x1123456789abcdef0,
        y: 0xfedcba9876543211,
        places: 64,
    },
    Row {
        size: 65,
        x: 3,
        y: 0x10000000000000005,
        places: 203,
    },
    Row {
        size: 128,
        x: 0xfedcba9876543210f0e1d2c3b4a59687,
        y: 0x123456789abcdef0123456789abcdef,
        places: 127,
    },
    Row {
        size: 128,
        x: 7,
        y: 0x7fffffffffffffffffffffffffffffff,
        places: 200,
    },
    Row {
        size: 128,
        x: 0xffffffffffffffffffffffffffffffff,
        y: 0x7fffffffffffffffffffffffffffffff,
        places: 65,
    },
];

// Prints what each call answers on a row.
fn print_row(rt: &impl Print, alloc: Global, row: &Row) -> io::Result<()> {
    let size = row.size.clamp(1, 128);
    for call in CALLS {
        match asked(alloc, call, size, row.x, row.y, row.places) {
            Ok((first, second)) => println!(rt; "{call:?} {size}: {first} {second}")?,
            Err(NoMemory) => println!(rt; "no memory")?,
        }
    }
    Ok(())
}

/// Prints what the calls answer on each row.
pub fn print(rt: &impl Print, alloc: Global) -> io::Result<()> {
    for row in &ROWS {
        print_row(rt, alloc, row)?;
    }
    Ok(())
}
