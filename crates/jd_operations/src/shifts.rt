//! Shifts of X by one place only move literals, so they need no gate. Left justification needs a
//! circuit of `jd_places`, and lifts the stack, since it gives both a word and the count of places.
ghost use Rattle.std.specs.Prelude.{◌≡◌, ℕ, ◌+◌, ◌-◌, ◌*◌, ◌^◌, ◌<◌, ◌≤◌, Bool, IfOk, List, length};
ghost use Rattle.hp_model.specs.Operations.{left_justify};
ghost use Rattle.hp_ops.specs.Meaning.{of_shift};
ghost use Rattle.jd_circuit.specs.Net.{Grows, variables};
ghost use Rattle.jd_content.specs.Meaning.{Fits};
ghost use Rattle.jd_operations.specs.Done.{IsDone};

use hp_control::Control;
use hp_ops::Shift;
use jd_circuit::{Circuit, NoMemory, Rewrite};
use jd_content::{SymContent, answer_x, lift, save};
use jd_places::{justified, shifted_arithmetic, shifted_left, shifted_right};
use jd_rows::SymAnswer;

/// X justified at the left: the word goes to Y, and the count of places to X.
fn change_justify<W: Rewrite>(
    c: &mut Circuit<'_, W>,
    content: &mut SymContent,
    control: &Control,
) -> Result<(), NoMemory>
    requires fits { Fits (variables c.old) control.now.size.bits content.old }
    requires room { length c.old.gates < 2 ^ 30 - 2 ^ 21 }
    ensures done { (given : List Bool) → IfOk result (λ _. IsDone c.old c.new control.now
        left_justify given control.now.size.bits content.old content.new) }
    ensures grows { Grows c.old c.new }
    ensures more { length c.new.gates ≤ length c.old.gates + 2 ^ 12 }
{
    let (count, word) = justified(c, &content.x)?;
    save(content);
    lift(content, count.resized(control.size.bits as usize));
    content.y = word;
    Ok(())
}

/// A shift, done to the content. Shifts by one place add no gate.
pub fn change_shift<W: Rewrite>(
    c: &mut Circuit<'_, W>,
    content: &mut SymContent,
    control: &Control,
    op: Shift,
) -> Result<(), NoMemory>
    requires fits { Fits (variables c.old) control.now.size.bits content.old }
    requires room { length c.old.gates < 2 ^ 30 - 2 ^ 21 }
    ensures done { (given : List Bool) → IfOk result (λ _. IsDone c.old c.new control.now
        (of_shift op) given control.now.size.bits content.old content.new) }
    ensures grows { Grows c.old c.new }
    ensures more { length c.new.gates ≤ length c.old.gates + 2 ^ 17 }
{
    match op {
        Shift::Left => {
            let answer = shifted_left(&content.x);
            answer_x(content, answer);
            Ok(())
        }
        Shift::Right => {
            let answer = shifted_right(&content.x);
            answer_x(content, answer);
            Ok(())
        }
        Shift::Arithmetic => {
            let answer = shifted_arithmetic(control.mode, &content.x);
            answer_x(content, answer);
            Ok(())
        }
        Shift::Justify => change_justify(c, content, control),
    }
}
