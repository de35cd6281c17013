//! The six flags as literals. To set or clear one puts a constant in its place and a test changes
//! none, so no gate is added; questions, rotations and the difference of two runs read flags here.
ghost use Rattle.std.specs.Prelude.{◌≡◌, ℕ, ◌<◌, Bool, List, Some, map, slice_get, slice_set};
ghost use Rattle.jd_circuit.specs.Meaning.{lit_value};
ghost use Rattle.hp_model.specs.State.{Control as ControlState, flag as flag_of};
ghost use Rattle.jd_circuit.specs.Net.{IsLit};
ghost use Rattle.jd_vectors.specs.Number.{Inside};
ghost use Rattle.hp_model.specs.DataStep.{changed};
ghost use Rattle.hp_ops.specs.Meaning.{of_flags};
ghost use Rattle.jd_content.specs.Meaning.{Fits, data_on};

use crate::content::SymContent;
use hp_ops::Flags;
use jd_circuit::Lit;

/// The literal at a place.
fn literal_at(flags: &[Lit; 6], number: usize) -> Lit
    requires { number < 6 }
    ensures { slice_get flags.now number ≡ Some result }
{
    flags[number]
}

/// The literal of a flag.
pub fn flag(content: &SymContent, number: u8) -> Lit
    requires { number < 6 }
    ensures of { (n : ℕ) → Inside n content.now.flags → IsLit n result }
    ensures meaning { (val : ℕ → Bool) → lit_value val result ≡ flag_of (data_on val content.now) number }
{
    literal_at(&content.flags, number as usize)
}

/// One flag.
#[tactic(auto, using(crate::proofs::Contents::flag_set))]
fn put_flag(content: &mut SymContent, number: u8, set: bool)
    requires { number < 6 }
    ensures meaning { (val : ℕ → Bool)
        → data_on val content.new ≡ record (data_on val content.old) {
          flags = slice_set (map (lit_value val) content.old.flags) number set;
        } }
    ensures fits { (n w : ℕ) → Fits n w content.old → Fits n w content.new }
    ensures same { content.new.nibbles ≡ content.old.nibbles }
{
    content.flags[number as usize] = Lit::Const(set);
}

/// A flag is set or cleared. A test changes none.
pub fn change_flags(content: &mut SymContent, op: Flags)
    ensures meaning { (k : ControlState) (given : List Bool) (val : ℕ → Bool)
        → data_on val content.new
        ≡ changed k (of_flags op) given (data_on val content.old) }
    ensures fits { (n w : ℕ) → Fits n w content.old → Fits n w content.new }
    ensures same { content.new.nibbles ≡ content.old.nibbles }
{
    match op {
        Flags::Set(flag) => put_flag(content, flag.number, true),
        Flags::Clear(flag) => put_flag(content, flag.number, false),
        Flags::Test(_) => {}
    }
}
