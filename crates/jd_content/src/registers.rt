//! Registers of literals, stored, recalled, exchanged with X or cleared. The operation, or the
//! answers that it was given, say which one is meant, so literals are only copied and no gate is
//! added.
ghost use Rattle.std.specs.Prelude.{◌≡◌, ℕ, ◌+◌, ◌*◌, ◌/◌, ◌^◌, ◌<◌, ◌≤◌, Bool, List, length};
ghost use Rattle.hp_model.specs.Operations as ops;
ghost use Rattle.hp_model.specs.State.{Control as ControlState, large_bytes, width as width_of};
ghost use Rattle.hp_model.specs.Memory.{register_value, with_register};
ghost use Rattle.hp_model.specs.Questions.{answers};
ghost use Rattle.hp_model.specs.DataStep.{changed, pushed};
ghost use Rattle.hp_ops.specs.Meaning.{where_is};
ghost use Rattle.hp_control.specs.Controls.{Listing, control_of};
ghost use Rattle.jd_vectors.specs.Number.{number, Inside};
ghost use Rattle.jd_rows.specs.Answers.{IsWord};
ghost use Rattle.jd_content.specs.Meaning.{data_on, nibbles_on, Fits};
ghost use Rattle.jd_content.specs.Places.{IsInside};

use crate::content::SymContent;
use crate::moves::push;
use crate::nibbles::NibbleLits;
use crate::sizes::{cut, widened};
use hp_control::{Control, number_given};
use hp_ops::Place;
use hp_words::WordSize;
use jd_vectors::Lits;

/// The literals of a register.
fn read_register(nibbles: &NibbleLits, size: WordSize, r: u16) -> Lits
    requires { 4 * (width_of size.bits * r + width_of size.bits) ≤ length nibbles.now }
    ensures meaning { (val : ℕ → Bool) → number val result
        ≡ register_value size.bits (nibbles_on val nibbles.now) r }
    ensures length { length result ≡ size.bits }
    ensures inside { (n : ℕ) → Inside n nibbles.now → Inside n result }
{
    let first = 4 * (size.nibbles() as usize * r as usize);
    nibbles.read(first, first + size.bits as usize)
}

/// A word is put into a register, with zeros in the bits above it.
fn write_register(nibbles: &mut NibbleLits, size: WordSize, r: u16, x: &Lits)
    requires length { length x.now ≡ size.bits }
    requires inside { 4 * (width_of size.bits * r + width_of size.bits) ≤ length nibbles.old }
    ensures meaning { (val : ℕ → Bool) → nibbles_on val nibbles.new
        ≡ with_register size.bits (nibbles_on val nibbles.old) r (number val x.now) }
    ensures length { length nibbles.new ≡ length nibbles.old }
    ensures inside { (n : ℕ) → Inside n nibbles.old → Inside n x.now → Inside n nibbles.new }
{
    let lits = widened(x, 4 * size.nibbles());
    nibbles.write(4 * (size.nibbles() as usize * r as usize), &lits);
}

/// X is stored in a register.
fn store_at(content: &mut SymContent, size: WordSize, r: u16)
    requires length { length content.old.x ≡ size.bits }
    requires inside { 4 * (width_of size.bits * r
        + width_of size.bits) ≤ length content.old.nibbles }
    ensures meaning { (val : ℕ → Bool)
        → data_on val content.new ≡ record (data_on val content.old) {
          nibbles = with_register size.bits (nibbles_on val content.old.nibbles) r (number val content.old.x);
        } }
    ensures fits { (n : ℕ) → Fits n size.bits content.old → Fits n size.bits content.new }
    ensures same { length content.new.nibbles ≡ length content.old.nibbles }
{
    write_register(&mut content.nibbles, size, r, &content.x);
}

/// A register is recalled.
fn recall_at(content: &mut SymContent, control: &Control, r: u16)
    requires { 4 * (width_of control.now.size.bits * r
        + width_of control.now.size.bits) ≤ length content.old.nibbles }
    ensures meaning { (listing : Listing) (val : ℕ → Bool) → data_on val content.new
        ≡ pushed (control_of control.now listing)
        (register_value control.now.size.bits (nibbles_on val content.old.nibbles) r)
        (data_on val content.old) }
    ensures fits { (n : ℕ) → Fits n control.now.size.bits content.old
        → Fits n control.now.size.bits content.new }
    ensures same { length content.new.nibbles ≡ length content.old.nibbles }
{
    let x = read_register(&content.nibbles, control.size, r);
    push(content, x, control.lift);
}

/// X is stored where a place says.
pub fn change_by_store(content: &mut SymContent, control: &Control, place: Place, given: &[bool])
    requires few { length given.now ≤ 12 }
    requires word { length content.old.x ≡ control.now.size.bits }
    requires inside { IsInside control.now.size.bits (length content.old.nibbles / 4)
        (where_is place) given.now }
    ensures meaning { (listing : Listing) (val : ℕ → Bool) → listing.bytes ≤ large_bytes
        → answers (control_of control.now listing) (ops.store (where_is place))
        (data_on val content.old) ≡ given.now
        → data_on val content.new
        ≡ changed (control_of control.now listing) (ops.store (where_is place)) given.now
        (data_on val content.old) }
    ensures fits { (n : ℕ) → Fits n control.now.size.bits content.old
        → Fits n control.now.size.bits content.new }
    ensures same { length content.new.nibbles ≡ length content.old.nibbles }
{
    match place {
        Place::Index => content.i = widened(&content.x, 64),
        Place::Direct(register) => store_at(content, control.size, register.number as u16),
        Place::Through => store_at(content, control.size, number_given(given) as u16),
    }
}

/// What a place holds goes to X.
pub fn change_by_recall(content: &mut SymContent, control: &Control, place: Place, given: &[bool])
    requires few { length given.now ≤ 12 }
    requires index { length content.old.i ≡ 64 }
    requires inside { IsInside control.now.size.bits (length content.old.nibbles / 4)
        (where_is place) given.now }
    ensures meaning { (listing : Listing) (val : ℕ → Bool) → listing.bytes ≤ large_bytes
        → answers (control_of control.now listing) (ops.recall (where_is place))
        (data_on val content.old) ≡ given.now
        → data_on val content.new
        ≡ changed (control_of control.now listing) (ops.recall (where_is place)) given.now
        (data_on val content.old) }
    ensures fits { (n : ℕ) → Fits n control.now.size.bits content.old
        → Fits n control.now.size.bits content.new }
    ensures same { length content.new.nibbles ≡ length content.old.nibbles }
{
    match place {
        Place::Index => {
            let x = cut(&content.i, control.size.bits);
            push(content, x, control.lift);
        }
        Place::Direct(register) => recall_at(content, control, register.number as u16),
        Place::Through => recall_at(content, control, number_given(given) as u16),
    }
}

/// X and the index register are exchanged.
pub fn change_by_exchange_index(content: &mut SymContent, control: &Control)
    requires word { length content.old.x ≡ control.now.size.bits }
    requires index { length content.old.i ≡ 64 }
    ensures meaning { (listing : Listing) (given : List Bool) (val : ℕ → Bool)
        → data_on val content.new
        ≡ changed (control_of control.now listing) ops.exchange_index given
        (data_on val content.old) }
    ensures fits { (n : ℕ) → Fits n control.now.size.bits content.old
        → Fits n control.now.size.bits content.new }
    ensures same { length content.new.nibbles ≡ length content.old.nibbles }
{
    let x = cut(&content.i, control.size.bits);
    content.i = widened(&content.x, 64);
    content.x = x;
}

/// X and the register that the index register names are exchanged.
pub fn change_by_exchange_through(content: &mut SymContent, control: &Control, given: &[bool])
    requires few { length given.now ≤ 12 }
    requires word { length content.old.x ≡ control.now.size.bits }
    requires inside { IsInside control.now.size.bits
        (length content.old.nibbles / 4) ops.through_index given.now }
    ensures meaning { (listing : Listing) (val : ℕ → Bool) → listing.bytes ≤ large_bytes
        → answers (control_of control.now listing) ops.exchange_through (data_on val content.old)
        ≡ given.now
        → data_on val content.new
        ≡ changed (control_of control.now listing) ops.exchange_through given.now
        (data_on val content.old) }
    ensures fits { (n : ℕ) → Fits n control.now.size.bits content.old
        → Fits n control.now.size.bits content.new }
    ensures same { length content.new.nibbles ≡ length content.old.nibbles }
{
    let r = number_given(given) as u16;
    let x = read_register(&content.nibbles, control.size, r);
    write_register(&mut content.nibbles, control.size, r, &content.x);
    content.x = x;
}

/// Every register nibble becomes zero.
pub fn change_by_clear(content: &mut SymContent)
    ensures meaning { (k : ControlState) (given : List Bool) (val : ℕ → Bool)
        → data_on val content.new ≡ changed k ops.clear_registers given (data_on val content.old) }
    ensures fits { (n w : ℕ) → Fits n w content.old → Fits n w content.new }
    ensures same { length content.new.nibbles ≡ length content.old.nibbles }
{
    content.nibbles.clear();
}
