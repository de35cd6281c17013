// What a command does.
ghost use Rattle.std.specs.Prelude.{◌≡◌, ◌≤◌, length, true, if◌then◌else◌};
ghost use Rattle.hp_model.specs.Press.{in_run_mode, in_program_mode, mode_after};
ghost use Rattle.hp_core.specs.Machines.{machine_of};
ghost use Rattle.hp_keys.specs.Commands.{command_of};
ghost use Rattle.hp_run.specs.Calculators.{shown_of};
ghost use Rattle.hp_run.specs.Places.{HasOwnBlocks, IsOnLine};

use crate::{editing, navigation, pressed_operations};
use hp_core::Machine;
use hp_keys::{Command, View};

/// Does a command in run mode or, where `program` is true, in program mode.
pub fn do_command(machine: &mut Machine, program: bool, command: Command) -> View
    requires blocks { HasOwnBlocks machine.old.memory }
    requires line { program ≡ true → IsOnLine machine.old }
    ensures shown { shown_of machine.new result
        ≡ (if program then in_program_mode (command_of command) (machine_of machine.old)
        else in_run_mode (command_of command) (machine_of machine.old)) }
    ensures blocks { HasOwnBlocks machine.new.memory }
    ensures inside { mode_after (command_of command) program ≡ true → IsOnLine machine.new }
{
    match command {
        Command::Do(op) if program => editing::insert(machine, op),
        Command::Do(op) => pressed_operations::press_operation(machine, op),
        Command::Show(base) => navigation::show(machine, View::Show(base)),
        Command::Status => navigation::show(machine, View::Status),
        Command::Mem => navigation::show(machine, View::Mem),
        Command::ClearPrefix => View::Normal,
        Command::ClearProgram if program => editing::clear_program(machine),
        Command::ClearProgram => navigation::rewind(machine),
        Command::ProgramRun if program => navigation::show(machine, View::Normal),
        Command::ProgramRun => navigation::enter_program(machine),
        Command::Sst if program => navigation::step_forward(machine),
        Command::Sst => pressed_operations::single_step(machine),
        Command::Bst => navigation::step_back(machine),
        Command::Bsp if program => editing::delete(machine),
        Command::Bsp => navigation::take_back(machine),
        Command::GotoLine(number) => navigation::go_to_line(machine, number),
        Command::Float => navigation::show(machine, View::Error(1)),
        Command::On => navigation::show(machine, View::Normal),
    }
}

/// Whether program mode is on after a command.
pub fn program_after(program: bool, command: Command) -> bool
    ensures { result ≡ mode_after (command_of command) program }
{
    match command {
        Command::ProgramRun => !program,
        Command::On => false,
        _ => program,
    }
}
