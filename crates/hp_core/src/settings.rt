// The word size.
ghost use Rattle.std.specs.Prelude.{◌≡◌, ◌%◌, ◌^◌, []};
ghost use Rattle.hp_model.specs.Operations as ops;
ghost use Rattle.hp_ops.specs.Meaning.{of_setting};
ghost use Rattle.hp_core.specs.Machines.{Changes};
ghost use Rattle.hp_core.specs.Fitting.{IsCut};

use crate::given::{Given, spell};
use crate::machine::Machine;
use crate::moves::drop;
use crate::words::masked;
use hp_control::size_given;
use hp_ops::{Op, Setting};
use hp_words::{Content, WordSize};

/// The stack and LAST X lose what is above the word size.
fn cut(content: &mut Content, size: WordSize)
    ensures { let d = content.old in let m = 2 ^ size.bits in content.new
        ≡ record d { x = d.x % m; y = d.y % m; z = d.z % m; t = d.t % m; l = d.l % m } }
{
    content.x = masked(size, content.x);
    content.y = masked(size, content.y);
    content.z = masked(size, content.z);
    content.t = masked(size, content.t);
    content.l = masked(size, content.l);
}

/// X names the word size, to which the stack and LAST X are cut. Whether it is above 64, which is
/// Error 2, and else its bits.
fn set_size(machine: &mut Machine, given: &mut Given)
    requires { given.old.items ≡ [] }
    ensures changes { Changes machine.old machine.new ops.set_size given.new.items }
    ensures cut { IsCut (Op.Setting Setting.Size) given.new.items machine.new.content }
{
    let bits = machine.x_word().magnitude();
    if bits > 64 {
        given.push(true);
        return;
    }
    spell(given, bits, 7);
    machine.content.x = machine.content.y;
    drop(&mut machine.content);
    cut(&mut machine.content, size_given(given.as_slice()));
}

/// The base, the mode or the word size is set, of which the last alone has to do with data.
#[inline(never)]
pub fn change(machine: &mut Machine, op: Setting, given: &mut Given)
    requires { given.old.items ≡ [] }
    ensures changes { Changes machine.old machine.new (of_setting op) given.new.items }
    ensures cut { IsCut (Op.Setting op) given.new.items machine.new.content }
{
    match op {
        Setting::Base(_) | Setting::Mode(_) => {}
        Setting::Size => set_size(machine, given),
    }
}
