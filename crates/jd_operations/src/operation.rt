//! The one call by which a symbolic machine does an operation of any group to its data, where the
//! operation doesn't err. It relies on the answers given; tests, jumps and windows leave the data
//! as they are.
ghost use Rattle.std.specs.Prelude.{◌≡◌, ℕ, ◌+◌, ◌-◌, ◌*◌, ◌/◌, ◌^◌, ◌<◌, ◌≤◌, Bool, IfOk, length};
ghost use Rattle.hp_ops.specs.Meaning.{of_registers, of_setting, operation};
ghost use Rattle.hp_control.specs.Controls.{size_after};
ghost use Rattle.jd_circuit.specs.Net.{Grows, Net, variables};
ghost use Rattle.jd_content.specs.Meaning.{Fits};
ghost use Rattle.jd_operations.specs.Done.{IsDone, IsPossible};

use crate::arithmetic::change_arithmetic;
use crate::bits::change_bits;
use crate::double::change_double;
use crate::logic::change_logic;
use crate::loops::change_loop;
use crate::rotations::{change_rotate, change_rotate_many};
use crate::shifts::change_shift;
use hp_control::Control;
use hp_ops::{Op, Registers, Setting};
use jd_circuit::{Circuit, NoMemory, Rewrite};
use jd_content::{
    SymContent, change_by_clear, change_by_digit, change_by_exchange_index,
    change_by_exchange_through, change_by_recall, change_by_store, change_flags, change_size,
    change_stack,
};

/// The base, the mode or the word size is set.
fn change_setting(content: &mut SymContent, control: &Control, op: Setting, given: &[bool])
    requires possible { IsPossible control.now.size.bits (length content.old.nibbles / 4)
        (of_setting op) given.now }
    ensures { (net : Net) → Fits (variables net) control.now.size.bits content.old
        → IsDone net net control.now (of_setting op) given.now
        (size_after (of_setting op) given.now control.now.size.bits) content.old content.new }
{
    match op {
        Setting::Size => change_size(content, given),
        Setting::Base(_) => {}
        Setting::Mode(_) => {}
    }
}

/// A register is stored, recalled or exchanged with X, or all are cleared.
fn change_registers(content: &mut SymContent, control: &Control, op: Registers, given: &[bool])
    requires few { length given.now ≤ 12 }
    requires word { length content.old.x ≡ control.now.size.bits }
    requires index { length content.old.i ≡ 64 }
    requires possible { IsPossible control.now.size.bits (length content.old.nibbles / 4)
        (of_registers op) given.now }
    ensures { (net : Net) → Fits (variables net) control.now.size.bits content.old
        → IsDone net net control.now
        (of_registers op) given.now control.now.size.bits content.old content.new }
{
    match op {
        Registers::Store(place) => change_by_store(content, control, place, given),
        Registers::Recall(place) => change_by_recall(content, control, place, given),
        Registers::ExchangeIndex => change_by_exchange_index(content, control),
        Registers::ExchangeThrough => change_by_exchange_through(content, control, given),
        Registers::Clear => change_by_clear(content),
    }
}

/// An operation that doesn't err, done to the content, from the answers to what it asks.
pub fn change<W: Rewrite>(
    c: &mut Circuit<'_, W>,
    content: &mut SymContent,
    control: &Control,
    op: Op,
    given: &[bool],
) -> Result<(), NoMemory>
    requires fits { Fits (variables c.old) control.now.size.bits content.old }
    requires few { length given.now ≤ 12 }
    requires possible { IsPossible control.now.size.bits (length content.old.nibbles / 4)
        (operation op) given.now }
    requires room { length c.old.gates < 2 ^ 30 - 2 ^ 21 }
    ensures done { IfOk result (λ _. IsDone c.old c.new control.now (operation op) given.now
        (size_after (operation op) given.now control.now.size.bits) content.old content.new) }
    ensures grows { Grows c.old c.new }
    ensures more { length c.new.gates ≤ length c.old.gates + 2 ^ 17 }
{
    match op {
        Op::Digit(digit) => {
            change_by_digit(content, control, digit);
            Ok(())
        }
        Op::Stack(op) => {
            change_stack(content, control, op);
            Ok(())
        }
        Op::Arithmetic(op) => {
            change_arithmetic(c, content, control, op)?;
            Ok(())
        }
        Op::Double(op) => {
            change_double(c, content, control, op)?;
            Ok(())
        }
        Op::Shift(op) => {
            change_shift(c, content, control, op)?;
            Ok(())
        }
        Op::Rotate(op) => {
            change_rotate(content, control, op);
            Ok(())
        }
        Op::RotateMany(op) => {
            change_rotate_many(c, content, control, op)?;
            Ok(())
        }
        Op::Bits(op) => {
            change_bits(c, content, control, op)?;
            Ok(())
        }
        Op::Logic(op) => {
            change_logic(c, content, control, op)?;
            Ok(())
        }
        Op::Setting(op) => {
            change_setting(content, control, op, given);
            Ok(())
        }
        Op::Test(_) => Ok(()),
        Op::Jump(_) => Ok(()),
        Op::Windows(_) => Ok(()),
        Op::Loop(op) => {
            change_loop(c, content, control, op)?;
            Ok(())
        }
        Op::Flags(op) => {
            change_flags(content, op);
            Ok(())
        }
        Op::Registers(op) => {
            change_registers(content, control, op, given);
            Ok(())
        }
    }
}
