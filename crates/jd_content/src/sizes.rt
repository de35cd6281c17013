//! Words cut, or given zeros above, without a gate. A new word size needs that for the stack and
//! LAST X; registers, loop counts, assumptions and the difference need it where words of two sizes
//! meet.
ghost use Rattle.std.specs.Prelude.{◌≡◌, ℕ, ◌+◌, ◌-◌, ◌*◌, ◌%◌, ◌^◌, ◌<◌, ◌≤◌, Bool, List, length, None, false};
ghost use Rattle.hp_model.specs.Operations as ops;
ghost use Rattle.hp_model.specs.State.{Control as ControlState};
ghost use Rattle.hp_model.specs.Questions.{answers};
ghost use Rattle.hp_model.specs.DataStep.{changed};
ghost use Rattle.hp_model.specs.ControlStep.{answer_at, number_given as number_given_of, size_given as size_given_of};
ghost use Rattle.jd_vectors.specs.Number.{number, Inside};
ghost use Rattle.jd_content.specs.Meaning.{Fits, data_on};
ghost use Rattle.jd_content.specs.Places.{IsSize};

use crate::content::SymContent;
use hp_control::size_given;
use jd_vectors::Lits;

/// The lower bits of a word.
pub fn cut(x: &Lits, size: u8) -> Lits
    requires { size ≤ length x.now }
    ensures length { length result ≡ size }
    ensures inside { (n : ℕ) → Inside n x.now → Inside n result }
    ensures meaning { (val : ℕ → Bool) → number val result ≡ number val x.now % 2 ^ size }
{
    x.part(0, size as usize)
}

/// A word with zeros above.
pub fn widened(x: &Lits, size: u8) -> Lits
    requires wide { length x.now ≤ size }
    requires word { size ≤ 64 }
    ensures length { length result ≡ size }
    ensures inside { (n : ℕ) → Inside n x.now → Inside n result }
    ensures meaning { (val : ℕ → Bool) → number val result ≡ number val x.now % 2 ^ size }
    ensures same { (val : ℕ → Bool) → number val result ≡ number val x.now }
{
    let mut lits = x.copy();
    lits.append(&Lits::constant(size - x.len() as u8, 0));
    lits
}

/// The word size becomes what the answers say: the stack drops, and each word is taken modulo 2 to
/// the size.
pub fn change_size(content: &mut SymContent, given: &[bool])
    requires { IsSize given.now }
    ensures meaning { (k : ControlState) (val : ℕ → Bool)
        → answers k ops.set_size (data_on val content.old) ≡ given.now
        → data_on val content.new
        ≡ changed k ops.set_size given.now (data_on val content.old) }
    ensures fits { (n w : ℕ) → Fits n w content.old → Fits n (size_given_of given.now) content.new }
    ensures same { content.new.nibbles ≡ content.old.nibbles }
{
    let size = size_given(given).bits as usize;
    content.x = content.y.resized(size);
    content.y = content.z.resized(size);
    content.z = content.t.resized(size);
    content.t = content.t.resized(size);
    content.l = content.l.resized(size);
}
