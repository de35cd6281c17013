// One operation: what it changes in the data, and then, from the answers of the data, in control.
ghost use Rattle.std.specs.Prelude.{◌≡◌, ℕ, ◌≤◌, [], true, false, slice_index};
ghost use Rattle.hp_model.specs.Run.{operated};
ghost use Rattle.hp_model.specs.Questions.{IsComplete};
ghost use Rattle.hp_model.specs.ControlStep.{control_step};
ghost use Rattle.hp_model.specs.WrittenNibbles.{writes};
ghost use Rattle.hp_ops.specs.Meaning.{operation, of_jump};
ghost use Rattle.hp_core.specs.FromLines.{IsFromALine};
ghost use Rattle.hp_core.specs.Fitting.{IsCut};
ghost use Rattle.hp_core.specs.Machines.{AsksNothing, Changes, Steps, KeepsLines, control_of, data_of, machine_of, step_of};

use crate::given::Given;
use crate::machine::Machine;
use crate::{
    arithmetic, bits, digits, double, flags, labels, loops, registers, settings, shifts, stack,
    tests_of_x,
};
use arrayvec::ArrayVec;
use hp_control::step_control;
use hp_model::Stop;
use hp_ops::{Jump, Op, Target};

/// Does to the data what an operation of any group does, and answers what control asks.
#[inline(always)]
fn change(machine: &mut Machine, op: Op, given: &mut Given)
    requires { given.old.items ≡ [] }
    ensures changes { Changes machine.old machine.new (operation op) given.new.items }
    ensures cut { IsCut op given.new.items machine.new.content }
{
    match op {
        Op::Digit(digit) => digits::enter(machine, digit),
        Op::Stack(op) => stack::change(machine, op),
        Op::Arithmetic(op) => arithmetic::change(machine, op, given),
        Op::Double(op) => double::change(machine, op, given),
        Op::Shift(op) => shifts::change(machine, op),
        Op::Rotate(op) => shifts::rotate(machine, op),
        Op::RotateMany(op) => given.push(shifts::rotate_many(machine, op)),
        Op::Bits(op) => bits::change(machine, op, given),
        Op::Logic(op) => bits::change_each(machine, op),
        Op::Setting(op) => settings::change(machine, op, given),
        Op::Test(op) => given.push(tests_of_x::test_holds(machine, op)),
        Op::Loop(op) => given.push(loops::count(machine, op)),
        Op::Flags(op) => flags::change(machine, op, given),
        Op::Jump(op) => labels::answer(machine, op, given),
        Op::Registers(op) => registers::change(machine, op, given),
        Op::Windows(_) => {}
    }
}

/// Does to control what an operation does, from the answers of the data.
#[inline(always)]
fn decide(machine: &mut Machine, op: Op, given: &[bool]) -> Stop
    requires from { IsFromALine (operation op) machine.old.control.line }
    requires complete { IsComplete (control_of machine.old) (operation op) given.now }
    requires cut { IsCut op given.now machine.old.content }
    ensures control { control_step (control_of machine.old) (operation op) given.now
        ≡ (control_of machine.new, result) }
    ensures contents { data_of machine.new ≡ data_of machine.old }
{
    step_control(&mut machine.control, &machine.memory, op, given)
}

/// Whether a jump asks nothing: its label is named by itself, or there is none.
#[inline(always)]
fn asks_nothing(op: Jump) -> bool
    ensures { result ≡ true → AsksNothing (of_jump op) }
{
    match op {
        Jump::Goto(Target::Index) | Jump::Gosub(Target::Index) => false,
        _ => true,
    }
}

/// A jump that asks nothing. It stands apart, so that in the loop of runs it goes from its code to its
/// end with no answers kept.
#[inline(always)]
fn take_jump(machine: &mut Machine, op: Jump) -> Stop
    requires from { IsFromALine (of_jump op) machine.old.control.line }
    requires silent { AsksNothing (of_jump op) }
    ensures { Steps machine.old machine.new result (of_jump op) }
{
    decide(machine, Op::Jump(op), &[])
}

/// What an operation changes in the data, and then, from the answers, in control.
#[inline(always)]
fn ask_and_decide(machine: &mut Machine, op: Op) -> Stop
    requires { IsFromALine (operation op) machine.old.control.line }
    ensures { Steps machine.old machine.new result (operation op) }
{
    let mut given = ArrayVec::new();
    change(machine, op, &mut given);
    decide(machine, op, given.as_slice())
}

/// An operation of any group.
#[inline(always)]
fn operate(machine: &mut Machine, op: Op) -> Stop
    requires { IsFromALine (operation op) machine.old.control.line }
    ensures { Steps machine.old machine.new result (operation op) }
{
    if let Op::Jump(op) = op {
        if asks_nothing(op) {
            return take_jump(machine, op);
        }
    }
    ask_and_decide(machine, op)
}

impl Machine {
    /// Does an operation, the line number standing at the line after it. Errors are those of the
    /// HP-16C Owner's Handbook, by their numbers: after one, all but digit entry is as it was.
    #[inline(always)]
    pub fn step(&mut self, op: Op) -> Stop
        requires { IsFromALine (operation op) self.old.control.line }
        ensures done { operated (operation op) (machine_of self.old) ≡ step_of self.new result }
        ensures lines { KeepsLines self.old self.new }
        ensures going { result ≡ Stop.Go → 1 ≤ self.old.control.line → 1 ≤ self.new.control.line }
        ensures kept { (j : ℕ) → writes (operation op) (machine_of self.old) j ≡ false
            → slice_index self.new.memory.nibbles j ≡ slice_index self.old.memory.nibbles j }
    {
        operate(self, op)
    }
}
