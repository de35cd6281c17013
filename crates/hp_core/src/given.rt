// The answers that data gives to what an operation asks.
ghost use Rattle.std.specs.Prelude.{◌≡◌, ◌≤◌, [], ◌∷◌, false, map};
ghost use Rattle.hp_model.specs.Words.{bit};
ghost use Rattle.hp_model.specs.Questions.{numbers_below};

use arrayvec::ArrayVec;

/// Answers in order. The most are asked where the index register names a register: whether there
/// are so many, and then eleven bits.
pub type Given = ArrayVec<bool, 12>;

/// Answers no, and then so many bits of a number, the lowest first.
pub fn spell(given: &mut Given, number: u64, count: u32)
    requires none { given.old.items ≡ [] }
    requires few { count ≤ 11 }
    ensures { given.new.items ≡ false ∷ map (bit number) (numbers_below count) }
{
    given.push(false);
    for k in 0..count {
        given.push((number >> k) % 2 == 1);
    }
}
