// The calculator.
ghost use Rattle.std.specs.Prelude.{◌≡◌, true};
ghost use Rattle.hp_run.specs.Places.{HasOwnBlocks, IsOnLine};

use hp_core::Machine;
use hp_keys::{Prefix, View};

/// A machine with what its keys keep: the pending prefix, whether it is in program mode, and what
/// the display shows. The program takes no more blocks of memory than it needs.
#[derive(Drop)]
pub struct Calculator {
    pub machine: Machine,
    pub prefix: Prefix,
    pub program: bool,
    pub view: View,
    pub ghost blocks_fit: { HasOwnBlocks machine.memory },
    pub ghost line_inside: { program ≡ true → IsOnLine machine },
}
