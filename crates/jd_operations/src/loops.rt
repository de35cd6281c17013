//! A loop's count in the index register, which `jd_comparisons` makes one less or one more at the
//! word size. The register keeps 64 literals, with zeros above; whether the count is zero is asked
//! by `jd_questions`.
ghost use Rattle.std.specs.Prelude.{◌≡◌, ◌+◌, ◌-◌, ◌^◌, ◌<◌, ◌≤◌, Bool, IfOk, List, length};
ghost use Rattle.hp_ops.specs.Meaning.{of_loop};
ghost use Rattle.jd_circuit.specs.Net.{Grows, variables};
ghost use Rattle.jd_content.specs.Meaning.{Fits};
ghost use Rattle.jd_operations.specs.Done.{IsDone};

use hp_control::Control;
use hp_ops::Loop;
use jd_circuit::{Circuit, NoMemory, Rewrite};
use jd_comparisons::counted_index;
use jd_content::{SymContent, widened};

/// The index register counts.
pub fn change_loop<W: Rewrite>(
    c: &mut Circuit<'_, W>,
    content: &mut SymContent,
    control: &Control,
    op: Loop,
) -> Result<(), NoMemory>
    requires fits { Fits (variables c.old) control.now.size.bits content.old }
    requires room { length c.old.gates < 2 ^ 30 - 2 ^ 21 }
    ensures done { (given : List Bool) → IfOk result (λ _. IsDone c.old c.new control.now
        (of_loop op) given control.now.size.bits content.old content.new) }
    ensures grows { Grows c.old c.new }
    ensures more { length c.new.gates ≤ length c.old.gates + 2 ^ 17 }
{
    let size = control.size.bits as usize;
    let pattern = counted_index(c, control.mode, op, &content.i, size)?;
    content.i = widened(&pattern, 64);
    Ok(())
}
