//! What a source of bytes is.
ghost use Rattle.std.specs.Prelude.{ℕ, ◌∷◌, [], List, MatchResult, MatchOption};
ghost use Rattle.std.specs.declared.option.Option.{Option};
ghost use Rattle.std.specs.Io.{ReadsAtMost};
ghost use Rattle.std.specs.Io.KnownBytes.{Consumes, IsAtEnd, Keeps, ReadConsumes};
ghost use Rattle.hp_io.specs.Causes.{CallsAtMost, HasCause};

use crate::failures::Failed;

/// Where bytes come from. `Ok(0)` into a slice that isn't empty means the end.
pub trait Source {
    // The bytes that are left, where they are told.
    ghost left: { Self → Option (List ℕ) };

    // How often a read has failed.
    ghost faults: { Self → ℕ };

    // How often `read` was called.
    ghost calls: { Self → ℕ };

    /// Moves the first bytes that are left into a slice, and answers how many they are.
    fn read(&mut self, into: &mut [u8]) -> Result<usize, Failed>
        ensures bound { ReadsAtMost result into.new }
        ensures bytes { ReadConsumes (left self.old) (left self.new) result into.new }
        ensures cause { HasCause (faults self.old) (faults self.new) result }
        ensures calls { CallsAtMost 1 (calls self.old) (calls self.new) };
}

/// The next byte, or none at the end.
pub fn next_byte<S: Source>(source: &mut S) -> Result<Option<u8>, Failed>
    ensures byte { MatchResult result
        (λ next. MatchOption next
        (Keeps (S.left source.old) (S.left source.new) × IsAtEnd (S.left source.new))
        (λ b. Consumes (S.left source.old) (S.left source.new) (b ∷ [])))
        (λ _. Keeps (S.left source.old) (S.left source.new)) }
    ensures cause { HasCause (S.faults source.old) (S.faults source.new) result }
    ensures calls { CallsAtMost 1 (S.calls source.old) (S.calls source.new) }
{
    let mut one = [0u8; 1];
    if source.read(&mut one)? == 0 {
        Ok(None)
    } else {
        Ok(Some(one[0]))
    }
}
