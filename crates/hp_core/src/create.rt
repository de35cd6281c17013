// Machines to begin with.
ghost use Rattle.std.specs.Prelude.{◌≡◌, ◌-◌, ◌^◌, ◌≤◌};
ghost use Rattle.hp_model.specs.State.{reset, memory_bytes};
ghost use Rattle.hp_core.specs.Machines.{machine_of};
ghost use Rattle.hp_core.specs.Begun.{begun};

use crate::machine::Machine;
use hp_control::{Calls, Control};
use hp_nibbles::{Extent, Memory};
use hp_words::{Base, Content, Mode, WordSize};

impl Machine {
    /// The machine after a full reset, with so much memory.
    pub fn new(extent: Extent) -> Machine
        ensures { machine_of result ≡ reset (memory_bytes extent) }
    {
        let content = Content {
            x: 0,
            y: 0,
            z: 0,
            t: 0,
            l: 0,
            i: 0,
            flags: [false; 6],
        };
        let mut machine = Machine::begin(
            WordSize { bits: 16 },
            Mode::Twos,
            Base::Hex,
            Memory::new(extent),
            content,
        );
        machine.control.line = 0;
        machine
    }

    /// The same machine.
    pub fn copy(&self) -> Machine
        ensures control { result.control ≡ self.now.control }
        ensures content { result.content ≡ self.now.content }
        ensures memory { result.memory ≡ self.now.memory }
    {
        Machine {
            control: self.control.copy(),
            content: self.content,
            memory: self.memory.copy(),
        }
    }

    /// A machine at line 1, with nothing pending, lift enabled and no entry.
    pub fn begin(
        size: WordSize,
        mode: Mode,
        base: Base,
        memory: Memory,
        content: Content,
    ) -> Machine
        requires x { content.x ≤ 2 ^ size.bits - 1 }
        requires y { content.y ≤ 2 ^ size.bits - 1 }
        requires z { content.z ≤ 2 ^ size.bits - 1 }
        requires t { content.t ≤ 2 ^ size.bits - 1 }
        requires l { content.l ≤ 2 ^ size.bits - 1 }
        ensures { machine_of result ≡ begun size.bits mode base memory content }
    {
        let control = Control {
            size,
            mode,
            base,
            line: 1,
            calls: Calls::new(),
            lift: true,
            entry: None,
            window: 0,
        };
        Machine {
            control,
            content,
            memory,
        }
    }
}
