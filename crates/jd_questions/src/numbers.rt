//! Questions spell a number that control needs: first whether it's too great, where a yes ends it,
//! and then its bits from the lowest. Word sizes, labels and registers that the data name are asked
//! so.
ghost use Rattle.std.specs.Prelude.{◌≡◌, ℕ, ◌∷◌, false, map, true};
ghost use Rattle.hp_model.specs.Questions.{Question, means_error, next_question, numbers_below};
ghost use Rattle.jd_questions.specs.Questions.{of_number};

/// What is asked next of a number.
#[derive(Clone, Copy, Debug, PartialEq, Eq)]
pub enum Next {
    First,
    Bit(u8),
    Done,
}

/// What is asked next of a number of so many bits.
pub fn next_of_number(bits: u8, given: &[bool]) -> Next
    ensures { (first : Question) (bit : ℕ → Question) → means_error first ≡ true
        → ((place : ℕ) → means_error (bit place) ≡ false)
        → next_question (first ∷ map bit (numbers_below bits)) given.now
        ≡ of_number result first bit }
{
    match given {
        [] => Next::First,
        [past, places @ ..] => {
            if *past || places.len() >= bits as usize {
                return Next::Done;
            }
            Next::Bit(places.len() as u8)
        }
    }
}
