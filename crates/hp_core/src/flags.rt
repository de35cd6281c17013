// The operations on flags.
ghost use Rattle.std.specs.Prelude.{◌≡◌, []};
ghost use Rattle.hp_ops.specs.Meaning.{of_flags};
ghost use Rattle.hp_core.specs.Machines.{Changes};

use crate::given::Given;
use crate::machine::Machine;
use hp_ops::Flags;

/// A flag is set, cleared or asked.
pub fn change(machine: &mut Machine, op: Flags, given: &mut Given)
    requires { given.old.items ≡ [] }
    ensures { Changes machine.old machine.new (of_flags op) given.new.items }
{
    match op {
        Flags::Set(flag) => machine.content.flags[flag.number as usize] = true,
        Flags::Clear(flag) => machine.content.flags[flag.number as usize] = false,
        Flags::Test(flag) => given.push(machine.content.flags[flag.number as usize]),
    }
}
