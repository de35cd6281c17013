// Pressed keys.
ghost use Rattle.std.specs.Prelude.{◌≡◌, ℕ, false, true, slice_index};
ghost use Rattle.hp_model.specs.Keys.{Pressed as PressedState};
ghost use Rattle.hp_model.specs.State.{memory_bytes};
ghost use Rattle.hp_model.specs.Memory.{is_of_register, register_value};
ghost use Rattle.hp_model.specs.Press.{new_calculator, commanded, press as press_of};
ghost use Rattle.hp_model.specs.WrittenNibbles.{wrote, all_wrote, pressed_all};
ghost use Rattle.hp_keys.specs.Commands.{command_of};
ghost use Rattle.hp_run.specs.Seen.{calculator_of};

use crate::calculators::Calculator;
use crate::commands::{do_command, program_after};
use hp_core::Machine;
use hp_keys::{Command, Key, Prefix, Pressed, View, press_key};
use hp_nibbles::Extent;

impl Calculator {
    /// The calculator after a full reset, with so much memory: 16 bits, two's complement,
    /// hexadecimal, run mode, and all else zero.
    pub fn new(extent: Extent) -> Calculator
        ensures { calculator_of result ≡ new_calculator (memory_bytes extent) }
    {
        Calculator {
            machine: Machine::new(extent),
            prefix: Prefix::new(),
            program: false,
            view: View::Normal,
        }
    }
}

/// Does a command.
fn press_command(calculator: &mut Calculator, command: Command)
    ensures { calculator_of calculator.new
        ≡ commanded (command_of command) (calculator_of calculator.old) }
{
    let program = calculator.program;
    calculator.view = do_command(&mut calculator.machine, program, command);
    calculator.program = program_after(program, command);
}

/// Presses a key, which may run up to 100,000 lines of the program. It changes no nibble of a
/// register but those that it stores to, clears, gives to the program or takes back from it.
pub fn press(calculator: &mut Calculator, key: Key)
    ensures pressed { calculator_of calculator.new ≡ press_of (calculator_of calculator.old) key }
    ensures kept { (j : ℕ) → wrote (calculator_of calculator.old) key j ≡ false
        → slice_index calculator.new.machine.memory.nibbles j
        ≡ slice_index calculator.old.machine.memory.nibbles j }
{
    match press_key(&mut calculator.prefix, key) {
        Pressed::Do(command) => press_command(calculator, command),
        Pressed::More | Pressed::Dropped => calculator.view = View::Normal,
    }
}

/// Presses keys in turn. A register none of whose nibbles a key may change reads as before at its
/// word size, whatever the word size was in between.
pub fn press_all(calculator: &mut Calculator, keys: &[Key])
    ensures pressed { calculator_of calculator.new
        ≡ pressed_all keys.now (calculator_of calculator.old) }
    ensures registers { (size register : ℕ)
        → ((j : ℕ) → is_of_register size register j ≡ true
        → all_wrote keys.now (calculator_of calculator.old) j ≡ false)
        → register_value size calculator.new.machine.memory.nibbles register
        ≡ register_value size calculator.old.machine.memory.nibbles register }
{
    for key in keys {
        press(calculator, *key);
    }
}
