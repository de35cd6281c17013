// Masks, single bits and logic.
ghost use Rattle.std.specs.Prelude.{◌≡◌, [], ◌∷◌};
ghost use Rattle.hp_model.specs.Operations as ops;
ghost use Rattle.hp_ops.specs.Meaning.{of_bits, of_logic};
ghost use Rattle.hp_core.specs.Machines.{Changes};

use crate::answers::{answer_two, answer_x, plain};
use crate::given::Given;
use crate::machine::Machine;
use hp_bits::{and, clear_bit, count_ones, mask_left, mask_right, not, or, set_bit, test_bit, xor};
use hp_ops::{Bits, Logic};

/// Ones from the left. Whether X is above the word size, which is Error 2.
fn left_mask(machine: &mut Machine) -> bool
    ensures { Changes machine.old machine.new ops.mask_left (result ∷ []) }
{
    match mask_left(machine.x_word()) {
        Err(_) => true,
        Ok(pattern) => {
            answer_x(machine, plain(pattern));
            false
        }
    }
}

/// Ones from the right. Whether X is above the word size, which is Error 2.
fn right_mask(machine: &mut Machine) -> bool
    ensures { Changes machine.old machine.new ops.mask_right (result ∷ []) }
{
    match mask_right(machine.x_word()) {
        Err(_) => true,
        Ok(pattern) => {
            answer_x(machine, plain(pattern));
            false
        }
    }
}

/// Y with a bit set. Whether X is the word size or more, which is Error 2.
fn with_bit_set(machine: &mut Machine) -> bool
    ensures { Changes machine.old machine.new ops.set_bit (result ∷ []) }
{
    match set_bit(machine.y_word(), machine.x_word()) {
        Err(_) => true,
        Ok(pattern) => {
            answer_two(machine, plain(pattern));
            false
        }
    }
}

/// Y with a bit cleared. Whether X is the word size or more, which is Error 2.
fn with_bit_cleared(machine: &mut Machine) -> bool
    ensures { Changes machine.old machine.new ops.clear_bit (result ∷ []) }
{
    match clear_bit(machine.y_word(), machine.x_word()) {
        Err(_) => true,
        Ok(pattern) => {
            answer_two(machine, plain(pattern));
            false
        }
    }
}

/// Y comes to X. Whether X is the word size or more, which is Error 2, and else Y's bit.
fn bit_tested(machine: &mut Machine, given: &mut Given)
    requires { given.old.items ≡ [] }
    ensures { Changes machine.old machine.new ops.test_bit given.new.items }
{
    match test_bit(machine.y_word(), machine.x_word()) {
        Err(_) => given.push(true),
        Ok(set) => {
            given.push(false);
            given.push(set);
            let y = machine.content.y;
            answer_two(machine, plain(y));
        }
    }
}

/// A mask, the count of ones, or a single bit.
#[inline(never)]
pub fn change(machine: &mut Machine, op: Bits, given: &mut Given)
    requires { given.old.items ≡ [] }
    ensures { Changes machine.old machine.new (of_bits op) given.new.items }
{
    match op {
        Bits::MaskLeft => given.push(left_mask(machine)),
        Bits::MaskRight => given.push(right_mask(machine)),
        Bits::CountOnes => {
            let count = count_ones(machine.x_word());
            answer_x(machine, plain(count));
        }
        Bits::Set => given.push(with_bit_set(machine)),
        Bits::Clear => given.push(with_bit_cleared(machine)),
        Bits::Test => bit_tested(machine, given),
    }
}

/// Logic on each bit.
#[inline(never)]
pub fn change_each(machine: &mut Machine, op: Logic)
    ensures { Changes machine.old machine.new (of_logic op) [] }
{
    let x = machine.x_word();
    let y = machine.y_word();
    match op {
        Logic::Not => answer_x(machine, plain(not(x))),
        Logic::And => answer_two(machine, plain(and(y, x))),
        Logic::Or => answer_two(machine, plain(or(y, x))),
        Logic::Xor => answer_two(machine, plain(xor(y, x))),
    }
}
