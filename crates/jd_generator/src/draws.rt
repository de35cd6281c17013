// What is drawn from a number, and the operations that a draw appends to either routine.
ghost use Rattle.std.specs.Prelude.{◌≡◌, ◌+◌, ◌<◌, ◌≤◌, ◌++◌, ◌/◌, ◌%◌, length, map};
ghost use Rattle.hp_model.specs.Codes.{code_of};
ghost use Rattle.jd_generated.specs.Generated.{drawn, draw_of, in_first, in_second};
ghost use Rattle.jd_generator.specs.Draws.{drawn_as, codes_of};

use hp_asm::Routine;
use hp_ops::{Arithmetic, HexDigit, Logic, Op, Rotation, Shift, Stack};

/// The most operations that a draw appends to a routine.
pub const MOST_APPENDED: usize = 7;

const ADD: Op = Op::Arithmetic(Arithmetic::Add);

const SUBTRACT: Op = Op::Arithmetic(Arithmetic::Subtract);

const CHANGE_SIGN: Op = Op::Arithmetic(Arithmetic::ChangeSign);

const ENTER: Op = Op::Stack(Stack::Enter);

const NOT: Op = Op::Logic(Logic::Not);

const LEFT: Op = Op::Shift(Shift::Left);

const TURN_LEFT: Op = Op::Rotate(Rotation::Left);

const TURN_RIGHT: Op = Op::Rotate(Rotation::Right);

const ONE: Op = Op::Digit(HexDigit { value: 1 });

const TWO: Op = Op::Digit(HexDigit { value: 2 });

const THREE: Op = Op::Digit(HexDigit { value: 3 });

const FIVE: Op = Op::Digit(HexDigit { value: 5 });

/// What may be drawn.
#[derive(Clone, Copy, Debug, PartialEq, Eq)]
pub enum Draw {
    /// Twice X.
    Double,
    /// NOT of X.
    Complement,
    /// X with its sign changed.
    Negation,
    /// X turned to the left by one place.
    Turn,
    /// X and five.
    FiveMore,
}

/// The state of the generator after one more draw.
pub fn next_state(state: u32) -> u32
    ensures { result ≡ drawn state }
{
    state.wrapping_mul(1_664_525).wrapping_add(1_013_904_223)
}

/// What is drawn at a state.
pub fn draw_at(state: u32) -> Draw
    ensures { drawn_as result ≡ draw_of (state / 65_536 % 5) }
{
    match state / 65_536 % 5 {
        0 => Draw::Double,
        1 => Draw::Complement,
        2 => Draw::Negation,
        3 => Draw::Turn,
        _ => Draw::FiveMore,
    }
}

/// Appends operations to a routine.
pub fn append(routine: &mut Routine, ops: &[Op])
    requires { length routine.old + length ops.now ≤ 203 }
    ensures appended { routine.new ≡ routine.old ++ codes_of ops.now }
    ensures length { length routine.new ≡ length routine.old + length ops.now }
{
    for op in ops {
        routine.push(op.code());
    }
}

/// Appends to the first routine what a draw adds to it.
pub fn append_to_first(routine: &mut Routine, draw: Draw)
    requires { length routine.old + MOST_APPENDED ≤ 203 }
    ensures appended { routine.new ≡ routine.old ++ map code_of (in_first (drawn_as draw)) }
    ensures length { length routine.new ≤ length routine.old + MOST_APPENDED }
{
    match draw {
        Draw::Double => append(routine, &[LEFT]),
        Draw::Complement => append(routine, &[NOT]),
        Draw::Negation => append(routine, &[CHANGE_SIGN]),
        Draw::Turn => append(routine, &[TURN_LEFT]),
        Draw::FiveMore => append(routine, &[FIVE, ADD]),
    }
}

/// Appends to the second routine what a draw adds to it.
pub fn append_to_second(routine: &mut Routine, draw: Draw)
    requires { length routine.old + MOST_APPENDED ≤ 203 }
    ensures appended { routine.new ≡ routine.old ++ map code_of (in_second (drawn_as draw)) }
    ensures length { length routine.new ≤ length routine.old + MOST_APPENDED }
{
    match draw {
        Draw::Double => append(routine, &[ENTER, ADD]),
        Draw::Complement => append(routine, &[CHANGE_SIGN, ONE, SUBTRACT]),
        Draw::Negation => append(routine, &[NOT, ONE, ADD]),
        Draw::Turn => append(routine, &[TURN_RIGHT; MOST_APPENDED]),
        Draw::FiveMore => append(routine, &[THREE, ADD, TWO, ADD]),
    }
}
