//! The cases in which an operation is tried: a start without a free part, and a routine that comes to
//! the operation and goes on after it.
ghost use Rattle.std.specs.Prelude.{◌<◌, ◌≤◌};

use crate::draws::Draws;
use hp_ops::{HexDigit, Jump, Op, Place, Register, Registers, Setting, Stack, Target};
use hp_words::{Base, Mode, WordSize};
use jd_problem::{Extent, Routine};
use std::alloc::{AllocError, Global};

/// One case of an operation. By its number, size and mode it comes to the operation one of eight ways,
/// and where its number is 3 it has the large memory.
#[derive(Clone, Copy)]
pub struct Case {
    pub op: Op,
    pub size: WordSize,
    pub mode: Mode,
    pub number: u8,
}

const ONE: Op = Op::Digit(HexDigit { value: 1 });

/// The label of the subroutine in which some operations stand.
const SUBROUTINE: HexDigit = HexDigit { value: 11 };

/// The words and flags of a start.
#[derive(Clone, Copy)]
struct Parts {
    x: u64,
    y: u64,
    z: u64,
    t: u64,
    last: u64,
    index: u64,
    flags: u64,
}

/// The number of a mode in a problem.
fn mode_number(mode: Mode) -> u8
    ensures { result ≤ 2 }
{
    match mode {
        Mode::Unsigned => 0,
        Mode::Ones => 1,
        Mode::Twos => 2,
    }
}

/// X stored in a register.
fn store(number: u8) -> Op
    requires { number < 32 }
{
    Op::Registers(Registers::Store(Place::Direct(Register { number })))
}

/// Adds a line, where there is room.
fn add(routine: &mut Routine, op: Op) {
    if !routine.is_full() {
        routine.push(op.code());
    }
}

impl Case {
    /// The large memory where the number is 3.
    fn memory(self) -> Extent {
        if self.number == 3 {
            Extent::Large
        } else {
            Extent::Standard
        }
    }

    /// The way to the operation, below 8. Of neighbouring sizes and modes each has another four.
    fn way(self) -> u8 {
        self.number % 4 + 4 * ((mode_number(self.mode) + self.size.bits % 2) % 2)
    }

    /// Draws that are this case's own.
    fn draws(self) -> Draws {
        let mode = u64::from(mode_number(self.mode));
        let place = u64::from(self.op.code()) * 64 + u64::from(self.size.bits) % 64;
        Draws::new((place * 4 + mode) * 8 + u64::from(self.number))
    }

    /// The index register: registers and labels that there are, and numbers far above.
    fn index(self, draws: &mut Draws) -> u64 {
        match self.way() {
            0 => 0,
            1 => 1,
            2 => 2,
            3 => 15,
            4 => 16,
            5 => (1 << 40) + 1,
            6 => draws.number() % 700,
            _ => u64::MAX,
        }
    }

    /// The start of the case. In some of them X is a count of places.
    fn parts(self) -> Parts {
        let mut draws = self.draws();
        let x = match self.way() {
            2 | 3 | 6 => draws.count(self.size),
            _ => draws.pattern(self.size),
        };
        Parts {
            x,
            y: draws.pattern(self.size),
            z: draws.pattern(self.size),
            t: draws.pattern(self.size),
            last: draws.pattern(self.size),
            index: self.index(&mut draws),
            flags: draws.number(),
        }
    }

    /// The label that the operation is about, and 0 where it is about none.
    fn label(self) -> HexDigit {
        match self.op {
            Op::Jump(Jump::Label(digit))
            | Op::Jump(Jump::Goto(Target::Label(digit)))
            | Op::Jump(Jump::Gosub(Target::Label(digit))) => digit,
            Op::Jump(Jump::Goto(Target::Index)) | Op::Jump(Jump::Gosub(Target::Index)) => {
                HexDigit {
                    value: (self.parts().index % 16) as u8,
                }
            }
            _ => HexDigit { value: 0 },
        }
    }

    /// What comes before the operation: two registers are filled; some ways it stands in a subroutine,
    /// at its label, after ENTER or behind digits.
    fn add_before(self, routine: &mut Routine) {
        if self.way() == 4 || self.way() == 6 {
            add(routine, Op::Jump(Jump::Gosub(Target::Label(SUBROUTINE))));
            add(routine, Op::Jump(Jump::RunStop));
            add(routine, Op::Jump(Jump::Label(SUBROUTINE)));
        }
        add(routine, store(0));
        add(routine, Op::Stack(Stack::RollDown));
        add(routine, store(1));
        add(routine, Op::Stack(Stack::RollUp));
        match self.way() {
            2 => {
                add(routine, Op::Jump(Jump::Label(self.label())));
                add(routine, Op::Stack(Stack::Enter));
            }
            5 => add(routine, ONE),
            7 => {
                add(routine, Op::Setting(Setting::Base(Base::Oct)));
                add(routine, ONE);
                add(routine, ONE);
            }
            _ => {}
        }
    }

    /// The routine of the case. After the operation come a line that a test skips, and mostly its label.
    pub fn routine(self) -> Routine {
        let mut routine = Routine::new();
        self.add_before(&mut routine);
        add(&mut routine, self.op);
        add(&mut routine, ONE);
        if self.way() != 1 {
            add(&mut routine, Op::Jump(Jump::Label(self.label())));
        }
        add(&mut routine, ONE);
        add(&mut routine, Op::Jump(Jump::Return));
        routine
    }

    /// The start of the case as a problem's text, whose routines are empty.
    pub fn text(self, alloc: Global) -> Result<String, AllocError> {
        let bytes = self.memory().bytes();
        let bits = self.size.bits;
        let mode = mode_number(self.mode);
        let start = start_lines(alloc, &self.parts())?;
        let start = start.as_str();
        format!(in alloc;
            "problem 2\nword {bits}\nmode {mode}\nbase 16\nmemory {bytes}\nsteps 1\npaths 1\nbudget 1\nobserve\n{start}first\nsecond\nend\n"
        )
    }
}

/// The lines that fix a start.
fn start_lines(alloc: Global, parts: &Parts) -> Result<String, AllocError> {
    let Parts {
        x,
        y,
        z,
        t,
        last,
        index,
        flags,
    } = *parts;
    let mut lines = format!(in alloc;
        "fix X {x:x}\nfix Y {y:x}\nfix Z {z:x}\nfix T {t:x}\nfix L {last:x}\nfix I {index:x}\n"
    )?;
    for (place, name) in [
        (0u32, "F0"),
        (1, "F1"),
        (2, "F2"),
        (3, "F3"),
        (4, "C"),
        (5, "G"),
    ] {
        let bit = (flags >> (place % 64)) % 2;
        lines.push_str(format!(in alloc; "fix {name} {bit}\n")?.as_str())?;
    }
    lines.push_str("fix M 0\n")?;
    Ok(lines)
}
