// Answers to what operations ask, one a question, in order.
ghost use Rattle.std.specs.Prelude.{◌≡◌, ℕ, ◌+◌, ◌^◌, ◌<◌, ◌≤◌, length};
ghost use Rattle.hp_model.specs.Words.{number_of_bits};
ghost use Rattle.hp_model.specs.ControlStep.{answer_at as answer_at_place, number_given as number_given_by};

/// The answer at a place, and no where there is none.
pub fn answer_at(given: &[bool], place: usize) -> bool
    ensures { result ≡ answer_at_place place given.now }
{
    place < given.len() && given[place]
}

/// The number whose bits are these, lowest first.
fn number_of_bits(bits: &[bool]) -> u64
    requires { length bits.now ≤ 12 }
    ensures value { result ≡ number_of_bits bits.now }
    ensures bound { result < 2 ^ length bits.now }
{
    match bits {
        [] => 0,
        [bit, rest @ ..] => {
            let rest = number_of_bits(rest);
            if *bit { 1 + 2 * rest } else { 2 * rest }
        }
    }
}

/// The number that the answers after the first spell.
pub fn number_given(given: &[bool]) -> u64
    requires { length given.now ≤ 12 }
    ensures value { result ≡ number_given_by given.now }
    ensures bound { (k : ℕ) → length given.now ≤ k + 1 → result < 2 ^ k }
{
    match given {
        [] => 0,
        [_, bits @ ..] => number_of_bits(bits),
    }
}
