//! What is assumed of starts: lists of fixed room, and whether they hold. They speak of a start's
//! content alone, so the nibbles play no part in the test.
ghost use Rattle.std.specs.Prelude.{◌≡◌, ℕ, List, ◌<◌, ◌≤◌, [], ◌∷◌, ◌++◌, length};
ghost use Rattle.hp_words.specs.Contents.{data_of};
ghost use Rattle.jd_model.specs.Assumptions.{part_value, holds, meets};
ghost use Rattle.jd_start.specs.Assumptions.{AreAssumed};

use arrayvec::ArrayVec;
use hp_words::Content;
use jd_model::{Against, Assume, NumPart, Relation};
use std::marker::Model;

/// The most assumptions that a problem may state.
pub const MOST_ASSUMED: usize = 64;

/// At most 64 assumptions. Contracts see the list.
#[derive(Drop)]
pub struct Assumed {
    assumed: ArrayVec<Assume, MOST_ASSUMED>,
}

impl Model for Assumed {
    ghost use Rattle.std.specs.Prelude.{List};
    ghost use Rattle.jd_model.specs.declared.assumptions.Assume.{Assume as AssumeValue};
    ghost use Rattle.jd_start.specs.Assumptions.{AreAssumed};

    ghost Value = { List AssumeValue };

    ghost view = { λ a. a.assumed.items };

    ghost invariant = { λ a. AreAssumed a.assumed.items };
}

impl Assumed {
    /// No assumption.
    pub fn new() -> Assumed
        ensures { result ≡ [] }
    {
        Assumed {
            assumed: ArrayVec::new(),
        }
    }

    /// Adds an assumption at the end.
    pub fn push(&mut self, assume: Assume)
        requires { length self.old < MOST_ASSUMED }
        ensures pushed { self.new ≡ self.old ++ assume ∷ [] }
        ensures assumed { AreAssumed self.new }
    {
        self.assumed.push(assume);
    }

    /// The assumptions in order.
    pub fn as_slice(&self) -> &[Assume]
        ensures same { result.now ≡ self.now }
        ensures assumed { AreAssumed result.now }
    {
        self.assumed.as_slice()
    }

    /// The same assumptions.
    pub fn copy(&self) -> Assumed
        ensures { result ≡ self.now }
    {
        let mut assumed = ArrayVec::new();
        assumed
            .try_extend_from_slice(self.assumed.as_slice())
            .unwrap();
        Assumed { assumed }
    }
}

/// The number of a part.
fn part_value(part: NumPart, content: &Content) -> u64
    ensures { result ≡ part_value part (data_of content.now []) }
{
    match part {
        NumPart::X => content.x,
        NumPart::Y => content.y,
        NumPart::Z => content.z,
        NumPart::T => content.t,
        NumPart::L => content.l,
        NumPart::I => content.i,
    }
}

/// Whether an assumption holds of a content. Patterns are compared as whole numbers.
fn holds(assume: &Assume, content: &Content) -> bool
    ensures { result ≡ holds assume.now (data_of content.now []) }
{
    let left = part_value(assume.left, content);
    let right = match assume.right {
        Against::Part(part) => part_value(part, content),
        Against::Number(number) => number,
    };
    match assume.relation {
        Relation::Lt => left < right,
        Relation::Le => left <= right,
        Relation::Eq => left == right,
        Relation::Ne => left != right,
    }
}

/// Whether all assumptions hold of a content.
fn all_hold(assumed: &[Assume], content: &Content) -> bool
    ensures { result ≡ meets assumed.now (data_of content.now []) }
{
    assumed.iter().all(|assume| holds(assume, content))
}

/// Whether all assumptions hold of the starts with a content.
pub fn meets(assumed: &Assumed, content: &Content) -> bool
    ensures { (nibbles : List ℕ) → result ≡ meets assumed.now (data_of content.now nibbles) }
{
    all_hold(assumed.as_slice(), content)
}
