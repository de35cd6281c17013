//! Digit entry adds no gate, since control knows the number that a digit makes: X becomes a
//! constant. Whether the digit is ignored, and whether the stack is lifted, depends on control too.
ghost use Rattle.std.specs.Prelude.{◌≡◌, ℕ, Bool, List};
ghost use Rattle.hp_model.specs.DataStep.{changed};
ghost use Rattle.hp_model.specs.Operations as ops;
ghost use Rattle.hp_control.specs.Controls.{Listing, control_of};
ghost use Rattle.jd_content.specs.Meaning.{Fits, data_on};

use crate::content::SymContent;
use crate::moves::push;
use hp_control::{Control, new_entry};
use hp_ops::HexDigit;
use jd_vectors::Lits;

/// The number that a digit makes goes to X, where the digit isn't ignored.
pub fn change_by_digit(content: &mut SymContent, control: &Control, digit: HexDigit)
    ensures meaning { (listing : Listing) (given : List Bool) (val : ℕ → Bool)
        → data_on val content.new
        ≡ changed (control_of control.now listing) (ops.digit digit.value) given
        (data_on val content.old) }
    ensures fits { (n : ℕ) → Fits n control.now.size.bits content.old
        → Fits n control.now.size.bits content.new }
    ensures same { content.new.nibbles ≡ content.old.nibbles }
{
    if let Some(number) = new_entry(control, digit) {
        let x = Lits::constant(control.size.bits, number);
        push(content, x, control.entry.is_none() && control.lift);
    }
}
