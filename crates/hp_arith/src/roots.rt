// Square roots, which only words that aren't negative have.
ghost use Rattle.std.specs.Prelude.{◌≡◌, ◌+◌, ◌*◌, ◌<◌, ◌≤◌, ◌<ℤ◌, ◌↔◌, pos, IfOk, IsErr};
ghost use Rattle.hp_model.specs.Words.{value, magnitude};
ghost use Rattle.hp_model.specs.WordOperations.{root as root_value, root_of};

use hp_words::{Answer, Error0, Word};

// The greatest number whose square is at most n.
fn whole_root(n: u64) -> u64
    ensures value { result ≡ root_value n }
    ensures square { result * result ≤ n }
    ensures next { n < (result + 1) * (result + 1) }
{
    n.isqrt()
}

/// The square root of x, cut to a whole number. The carry is set where the root isn't exact.
pub fn root(x: Word) -> Result<Answer, Error0>
    ensures ok { IfOk result (λ a. a ≡ root_of x.size.bits x.mode x.pattern) }
    ensures square { IfOk result (λ a.
        a.pattern * a.pattern ≤ magnitude x.size.bits x.mode x.pattern) }
    ensures next { IfOk result (λ a.
        magnitude x.size.bits x.mode x.pattern < (a.pattern + 1) * (a.pattern + 1)) }
    ensures refused { IsErr result ↔ (value x.size.bits x.mode x.pattern <ℤ pos 0) }
{
    if x.value() < 0 {
        return Err(Error0);
    }
    let square = x.magnitude();
    let root = whole_root(square);
    Ok(Answer {
        pattern: root,
        carry: Some(root * root < square),
        range: Some(false),
    })
}
