//! Rotations of X by one place, which only move literals, and of Y by as many places as X says,
//! which `jd_places` and `jd_turns` make as circuits. The carry is read from flag 4 and put back
//! there.
ghost use Rattle.std.specs.Prelude.{◌≡◌, ℕ, ◌+◌, ◌-◌, ◌*◌, ◌^◌, ◌<◌, ◌≤◌, Bool, IfOk, List, length};
ghost use Rattle.hp_model.specs.Operations as ops;
ghost use Rattle.hp_model.specs.WordOperations.{rotated_of, turned_times};
ghost use Rattle.hp_ops.specs.Meaning.{way};
ghost use Rattle.jd_circuit.specs.Meaning.{lit_value};
ghost use Rattle.jd_circuit.specs.Net.{Grows, IsLit, IsOf, Net, Solves, variables};
ghost use Rattle.jd_vectors.specs.Number.{AreOf, Inside, number};
ghost use Rattle.jd_rows.specs.Answers.{AnswerFits, answer_on};
ghost use Rattle.jd_content.specs.Meaning.{Fits};
ghost use Rattle.jd_operations.specs.Done.{IsDone};

use hp_control::Control;
use hp_ops::Rotation;
use jd_circuit::{Circuit, Lit, NoMemory, Rewrite};
use jd_content::{SymContent, answer_two, answer_x, flag};
use jd_places::{
    places_of, rotated_left, rotated_left_with_carry, rotated_right, rotated_right_with_carry,
    turned_left, turned_right,
};
use jd_rows::SymAnswer;
use jd_turns::{turn_left_with_carry, turn_right_with_carry};
use jd_vectors::Lits;

/// One place.
fn rotated(op: Rotation, x: &Lits, carry: Lit) -> SymAnswer
    requires { 1 ≤ length x.now }
    ensures meaning { (val : ℕ → Bool) → answer_on val result
        ≡ rotated_of (way op) (length x.now) (number val x.now) (lit_value val carry) }
    ensures fits { (n : ℕ) → Inside n x.now → IsLit n carry → AnswerFits n (length x.now) result }
{
    match op {
        Rotation::Left => rotated_left(x),
        Rotation::Right => rotated_right(x),
        Rotation::LeftCarry => rotated_left_with_carry(x, carry),
        Rotation::RightCarry => rotated_right_with_carry(x, carry),
    }
}

/// A rotation by one place, done to the content. It adds no gate.
pub fn change_rotate(content: &mut SymContent, control: &Control, op: Rotation)
    requires { 1 ≤ length content.old.x }
    ensures { (net : Net) (given : List Bool)
        → Fits (variables net) control.now.size.bits content.old
        → IsDone net net control.now (ops.rotate
        (way op)) given control.now.size.bits content.old content.new }
{
    let carry = flag(content, 4);
    let answer = rotated(op, &content.x, carry);
    answer_x(content, answer);
}

/// So many places, and the carry after them.
fn turned<W: Rewrite>(
    c: &mut Circuit<'_, W>,
    op: Rotation,
    y: &Lits,
    carry: Lit,
    places: &Lits,
) -> Result<(Lits, Lit), NoMemory>
    requires some { 1 ≤ length y.now }
    requires word { length y.now ≤ 64 }
    requires places { length places.now ≤ 8 }
    requires first { AreOf c.old y.now }
    requires second { IsOf c.old carry }
    requires third { AreOf c.old places.now }
    requires room { length c.old.gates < 2 ^ 30 - 2 ^ 20 }
    ensures length { IfOk result (λ r. length r.0 ≡ length y.now) }
    ensures of { IfOk result (λ r. AreOf c.new r.0) }
    ensures carry { IfOk result (λ r. IsOf c.new r.1) }
    ensures turned { IfOk result (λ r. (val : ℕ → Bool) → Solves c.new val
        → number val places.now ≤ length y.now
        → (number val r.0, lit_value val r.1)
        ≡ turned_times (number val places.now) (way op) (length y.now) (number val y.now)
        (lit_value val carry)) }
    ensures grows { Grows c.old c.new }
    ensures more { length c.new.gates ≤ length c.old.gates + 2 ^ 11 }
{
    match op {
        Rotation::Left => turned_left(c, y, carry, places),
        Rotation::Right => turned_right(c, y, carry, places),
        Rotation::LeftCarry => turn_left_with_carry(c, y, carry, places),
        Rotation::RightCarry => turn_right_with_carry(c, y, carry, places),
    }
}

/// A rotation by as many places as X says, done to the content.
#[tactic(auto, using(jd_vectors::proofs::Kept::grows_trans))]
pub fn change_rotate_many<W: Rewrite>(
    c: &mut Circuit<'_, W>,
    content: &mut SymContent,
    control: &Control,
    op: Rotation,
) -> Result<(), NoMemory>
    requires fits { Fits (variables c.old) control.now.size.bits content.old }
    requires room { length c.old.gates < 2 ^ 30 - 2 ^ 21 }
    ensures done { (given : List Bool) → IfOk result (λ _. IsDone c.old c.new control.now
        (ops.rotate_many (way op)) given control.now.size.bits content.old content.new) }
    ensures grows { Grows c.old c.new }
    ensures more { length c.new.gates ≤ length c.old.gates + 2 ^ 17 }
{
    let places = places_of(c, control.mode, &content.x)?;
    let carry = flag(content, 4);
    let (pattern, after) = turned(c, op, &content.y, carry, &places)?;
    let answer = SymAnswer {
        pattern,
        carry: Some(after),
        range: None,
    };
    answer_two(content, answer);
    Ok(())
}
