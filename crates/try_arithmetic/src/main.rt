//! Puts all pairs of words of eight bits, in each mode, through the calls on two words, and prints the
//! totals of what they gave. `totals.py` works the same totals out in Python.
#![tactic(auto)]

ghost use Rattle.std.specs.Prelude.{◌≡◌};
ghost use Rattle.hp_words.specs.Alike.{AreAlike};

use Call::{Add, Div, Mul, Rmd, Sub};
use Mode::{Ones, Twos, Unsigned};
use hp_arith::{add, div, mul, rmd, sub};
use hp_words::{Answer, Error0, Mode, Word, WordSize};
use std::io;

#[derive(Clone, Copy, Debug)]
enum Call {
    Add,
    Sub,
    Mul,
    Div,
    Rmd,
}

// How many answers set each flag or were refused, and the sum of their patterns.
#[derive(Clone, Copy)]
struct Totals {
    patterns: u64,
    carries: u64,
    ranges: u64,
    refusals: u64,
}

fn counted(count: u64, flag: Option<bool>) -> u64 {
    count.wrapping_add(u64::from(flag == Some(true)))
}

impl Totals {
    fn with(self, answer: Result<Answer, Error0>) -> Totals {
        match answer {
            Ok(answer) => Totals {
                patterns: self.patterns.wrapping_add(answer.pattern),
                carries: counted(self.carries, answer.carry),
                ranges: counted(self.ranges, answer.range),
                refusals: self.refusals,
            },
            Err(Error0) => Totals {
                refusals: self.refusals.wrapping_add(1),
                ..self
            },
        }
    }
}

fn word(mode: Mode, pattern: u8) -> Word
    ensures size { result.size.bits ≡ 8 }
    ensures mode { result.mode ≡ mode }
{
    Word::new(WordSize { bits: 8 }, mode, u64::from(pattern))
}

fn done(call: Call, y: Word, x: Word) -> Result<Answer, Error0>
    requires { AreAlike y x }
{
    match call {
        Add => Ok(add(y, x)),
        Sub => Ok(sub(y, x)),
        Mul => Ok(mul(y, x)),
        Div => div(y, x),
        Rmd => rmd(y, x),
    }
}

fn sweep(mode: Mode, call: Call) -> Totals {
    let mut totals = Totals {
        patterns: 0,
        carries: 0,
        ranges: 0,
        refusals: 0,
    };
    for pair in 0..=u16::MAX {
        let [y, x] = pair.to_be_bytes();
        totals = totals.with(done(call, word(mode, y), word(mode, x)));
    }
    totals
}

fn main(rt: HostRuntime) -> io::Result<()> {
    for mode in [Unsigned, Ones, Twos] {
        for call in [Add, Sub, Mul, Div, Rmd] {
            let totals = sweep(mode, call);
            let patterns = totals.patterns;
            let carries = totals.carries;
            let ranges = totals.ranges;
            let refusals = totals.refusals;
            println!(rt;
                "{mode:?} {call:?}: patterns {patterns}, carries {carries}, out of range {ranges}, refused {refusals}"
            )?;
        }
    }
    Ok(())
}
