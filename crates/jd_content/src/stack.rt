//! The operations that only move the stack's words or clear X. They copy literals from place to
//! place, so no gate is added; control says whether LAST X lifts, and how wide a cleared X is.
ghost use Rattle.std.specs.Prelude.{◌≡◌, ℕ, Bool, List};
ghost use Rattle.hp_model.specs.DataStep.{changed};
ghost use Rattle.hp_ops.specs.Meaning.{of_stack};
ghost use Rattle.hp_control.specs.Controls.{Listing, control_of};
ghost use Rattle.jd_content.specs.Meaning.{Fits, data_on};

use crate::content::SymContent;
use crate::moves::{lift, push};
use hp_control::Control;
use hp_ops::Stack;
use jd_vectors::Lits;

/// An operation that moves the stack.
pub fn change_stack(content: &mut SymContent, control: &Control, op: Stack)
    ensures meaning { (listing : Listing) (given : List Bool) (val : ℕ → Bool)
        → data_on val content.new
        ≡ changed (control_of control.now listing) (of_stack op) given (data_on val content.old) }
    ensures fits { (n : ℕ) → Fits n control.now.size.bits content.old
        → Fits n control.now.size.bits content.new }
    ensures same { content.new.nibbles ≡ content.old.nibbles }
{
    match op {
        Stack::Enter => {
            let x = content.x.copy();
            lift(content, x);
        }
        Stack::RollDown => {
            let x = content.x.copy();
            content.x = content.y.copy();
            content.y = content.z.copy();
            content.z = content.t.copy();
            content.t = x;
        }
        Stack::RollUp => {
            let t = content.t.copy();
            lift(content, t);
        }
        Stack::Exchange => {
            let x = content.x.copy();
            content.x = content.y.copy();
            content.y = x;
        }
        Stack::ClearX => content.x = Lits::constant(control.size.bits, 0),
        Stack::LastX => {
            let last = content.l.copy();
            push(content, last, control.lift);
        }
    }
}
