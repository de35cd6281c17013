//! The problem of a number, with its two routines. It is small enough that the judge always decides
//! it: 8 free bits, two paths, and a budget that suffices for them.
ghost use Rattle.std.specs.Prelude.{◌≡◌, ◌∷◌, [], true, false, map, replicate, Some, None};
ghost use Rattle.hp_model.specs.Codes.{code_of};
ghost use Rattle.hp_model.specs.Operations as ops;
ghost use Rattle.jd_generated.specs.Generated.{draws_for, generated, in_first, in_second, routine};
ghost use Rattle.jd_problem.specs.Problems.{problem_of};
ghost use Rattle.jd_start.specs.Parts.{marks_of, values_of};

use crate::draws::{append, append_to_first, append_to_second, draw_at, next_state};
use hp_asm::Routine;
use hp_model::Extent;
use hp_ops::{Logic, Op, Test};
use hp_words::{Base, Mode, WordSize};
use jd_problem::Problem;
use jd_start::{Assumed, Fixed, Parts};

/// X, Y and Z.
fn observed() -> Parts
    ensures { marks_of result ≡ true ∷ true ∷ true ∷ replicate 10 false }
{
    Parts {
        x: true,
        y: true,
        z: true,
        t: false,
        l: false,
        i: false,
        flags: [false; 6],
        memory: false,
    }
}

/// Each part but X, at zero.
fn fixed() -> Fixed
    ensures { values_of result ≡ None ∷ replicate 12 (Some 0) }
{
    Fixed {
        x: None,
        y: Some(0),
        z: Some(0),
        t: Some(0),
        l: Some(0),
        i: Some(0),
        flags: [Some(false); 6],
        memory: true,
    }
}

/// The test with which both routines begin.
fn beginning() -> Routine
    ensures { result ≡ map code_of (ops.test ops.is_zero ∷ ops.bits_not ∷ []) }
{
    let mut routine = Routine::new();
    append(&mut routine, &[Op::Test(Test::Zero), Op::Logic(Logic::Not)]);
    routine
}

/// Both routines of a number.
fn routines(n: u32) -> (Routine, Routine)
    ensures first { result.0 ≡ routine in_first (draws_for n) }
    ensures second { result.1 ≡ routine in_second (draws_for n) }
{
    let mut first = beginning();
    let mut second = beginning();
    let mut state = n;
    for _ in 0..1 + n % 24 {
        state = next_state(state);
        let draw = draw_at(state);
        append_to_first(&mut first, draw);
        append_to_second(&mut second, draw);
    }
    (first, second)
}

/// The problem of a number: 8 bits, unsigned, with X free, Y, Z and T at zero, and X, Y and Z observed.
/// Its routines have at most 170 lines.
pub fn generate(n: u32) -> Problem
    ensures { problem_of result ≡ generated n }
{
    let (first, second) = routines(n);
    Problem {
        size: WordSize { bits: 8 },
        mode: Mode::Unsigned,
        base: Base::Hex,
        memory: Extent::Standard,
        steps: 500,
        paths: 64,
        budget: 1_048_576,
        observed: observed(),
        fixed: fixed(),
        assumed: Assumed::new(),
        first,
        second,
    }
}
