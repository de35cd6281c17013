// Shifts and rotations.
ghost use Rattle.std.specs.Prelude.{◌≡◌, ◌^◌, ◌<◌, ◌↔◌, [], ◌∷◌, IsErr, IfOk};
ghost use Rattle.hp_model.specs.State.{carry as carry_of};
ghost use Rattle.hp_model.specs.Questions.{x_magnitude};
ghost use Rattle.hp_model.specs.WordOperations.{rotated_of, rotated_times_of};
ghost use Rattle.hp_model.specs.Operations as ops;
ghost use Rattle.hp_ops.specs.Meaning.{of_shift, way};
ghost use Rattle.hp_core.specs.Machines.{Changes, control_of, data_of};

use crate::answers::{answer_two, answer_x};
use crate::machine::Machine;
use crate::moves::{lift, save};
use hp_bits::{Error2, asr, left_justify, rl, rlc, rlcn, rln, rr, rrc, rrcn, rrn, sl, sr};
use hp_model::Answer;
use hp_ops::{Rotation, Shift};

/// X shifted to the left until its top bit is 1, in Y, and by how many places, in X.
fn justify(machine: &mut Machine)
    ensures { Changes machine.old machine.new ops.left_justify [] }
{
    let (word, count) = left_justify(machine.x_word());
    save(&mut machine.content);
    lift(&mut machine.content);
    machine.content.y = word;
    machine.content.x = count;
}

/// A shift of X.
#[inline(never)]
pub fn change(machine: &mut Machine, op: Shift)
    ensures { Changes machine.old machine.new (of_shift op) [] }
{
    let x = machine.x_word();
    match op {
        Shift::Left => answer_x(machine, sl(x)),
        Shift::Right => answer_x(machine, sr(x)),
        Shift::Arithmetic => answer_x(machine, asr(x)),
        Shift::Justify => justify(machine),
    }
}

/// X rotated by one place.
fn rotated(machine: &Machine, op: Rotation) -> Answer
    ensures value { result ≡ rotated_of (way op)
        machine.now.control.size.bits machine.now.content.x (carry_of (data_of machine.now)) }
    ensures bound { result.pattern < 2 ^ machine.now.control.size.bits }
{
    let x = machine.x_word();
    let carry = machine.content.flags[4];
    match op {
        Rotation::Left => rl(x),
        Rotation::Right => rr(x),
        Rotation::LeftCarry => rlc(x, carry),
        Rotation::RightCarry => rrc(x, carry),
    }
}

/// A rotation of X by one place.
#[inline(never)]
pub fn rotate(machine: &mut Machine, op: Rotation)
    ensures { Changes machine.old machine.new (ops.rotate (way op)) [] }
{
    let answer = rotated(machine, op);
    answer_x(machine, answer);
}

/// Y rotated by as many places as X says.
fn rotated_many(machine: &Machine, op: Rotation) -> Result<Answer, Error2>
    ensures refused { IsErr result ↔ (machine.now.control.size.bits
        < x_magnitude (control_of machine.now) (data_of machine.now)) }
    ensures value { IfOk result (λ answer. answer ≡ rotated_times_of (way op)
        machine.now.control.size.bits (x_magnitude (control_of machine.now) (data_of machine.now))
        machine.now.content.y (carry_of (data_of machine.now))) }
    ensures bound { IfOk result (λ answer. answer.pattern < 2 ^ machine.now.control.size.bits) }
{
    let x = machine.x_word();
    let y = machine.y_word();
    let carry = machine.content.flags[4];
    match op {
        Rotation::Left => rln(y, x),
        Rotation::Right => rrn(y, x),
        Rotation::LeftCarry => rlcn(y, x, carry),
        Rotation::RightCarry => rrcn(y, x, carry),
    }
}

/// Y rotated by as many places as X says. Whether that is above the word size, which is Error 2.
#[inline(never)]
pub fn rotate_many(machine: &mut Machine, op: Rotation) -> bool
    ensures { Changes machine.old machine.new (ops.rotate_many (way op)) (result ∷ []) }
{
    match rotated_many(machine, op) {
        Err(_) => true,
        Ok(answer) => {
            answer_two(machine, answer);
            false
        }
    }
}
