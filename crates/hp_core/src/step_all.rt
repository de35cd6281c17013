// Several operations in order.
ghost use Rattle.std.specs.Prelude.{◌≡◌, ℕ, true, false, map};
ghost use Rattle.hp_model.specs.Memory.{register_value, is_of_register};
ghost use Rattle.hp_model.specs.WrittenNibbles.{operated_all, all_write};
ghost use Rattle.hp_ops.specs.Meaning.{operation};
ghost use Rattle.hp_core.specs.FromLines.{AreFromLines};
ghost use Rattle.hp_core.specs.Machines.{machine_of};

use crate::machine::Machine;
use hp_ops::Op;

impl Machine {
    /// Does operations in order, whatever each of them answers. A register none of whose nibbles is
    /// written reads as before at its word size, whatever word sizes come between.
    pub fn step_all(&mut self, ops: &[Op])
        requires { AreFromLines (map operation ops.now) (machine_of self.old) }
        ensures done { machine_of self.new
            ≡ operated_all (map operation ops.now) (machine_of self.old) }
        ensures restored { (w r : ℕ) → ((j : ℕ) → is_of_register w r j ≡ true
            → all_write (map operation ops.now) (machine_of self.old) j ≡ false)
            → register_value w self.new.memory.nibbles r
            ≡ register_value w self.old.memory.nibbles r }
    {
        for op in ops {
            self.step(*op);
        }
    }
}
