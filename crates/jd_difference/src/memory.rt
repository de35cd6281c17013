//! One literal for all register nibbles, compared four bits at a time. `ends` asks for it where a
//! problem observes M; both runs have as many nibbles, since memory and blocks are the problem's.
ghost use Rattle.std.specs.Prelude.{◌≡◌, ◌==◌, ℕ, ◌+◌, ◌-◌, ◌*◌, ◌^◌, ◌<◌, ◌≤◌, Bool, bytes_eq, length, IfOk};
ghost use Rattle.jd_circuit.specs.Meaning.{lit_value};
ghost use Rattle.jd_circuit.specs.Net.{Grows, IsOf, Solves};
ghost use Rattle.jd_vectors.specs.Number.{AreOf};
ghost use Rattle.jd_content.specs.Meaning.{nibble_on, nibbles_on};

use jd_circuit::{Circuit, Lit, NoMemory, Rewrite};
use jd_content::NibbleLits;
use jd_vectors::same;

/// The literal that is true exactly where a nibble is the same in both.
fn same_nibble<W: Rewrite>(
    c: &mut Circuit<'_, W>,
    place: usize,
    first: &NibbleLits,
    second: &NibbleLits,
) -> Result<Lit, NoMemory>
    requires first { AreOf c.old first.now }
    requires second { AreOf c.old second.now }
    requires place { 4 * place + 4 ≤ length first.now }
    requires length { length second.now ≡ length first.now }
    requires few { length first.now ≤ 2 ^ 13 }
    requires room { length c.old.gates < 2 ^ 30 - 2 ^ 14 }
    ensures of { IfOk result (IsOf c.new) }
    ensures means { IfOk result (λ l. (val : ℕ → Bool) → Solves c.new val
        → lit_value val l ≡ (nibble_on val first.now place == nibble_on val second.now place)) }
    ensures grows { Grows c.old c.new }
    ensures more { length c.new.gates ≤ length c.old.gates + 8 }
{
    let from = 4 * place;
    let one = first.read(from, from + 4);
    let other = second.read(from, from + 4);
    let equal = same(c, &one, &other)?;
    Ok(equal)
}

/// The literal that is true exactly where all nibbles are the same, of two lists of so many.
pub fn same_memory<W: Rewrite>(
    c: &mut Circuit<'_, W>,
    count: u16,
    first: &NibbleLits,
    second: &NibbleLits,
) -> Result<Lit, NoMemory>
    requires first { AreOf c.old first.now }
    requires second { AreOf c.old second.now }
    requires first_count { length first.now ≡ 4 * count }
    requires second_count { length second.now ≡ 4 * count }
    requires few { count ≤ 1218 }
    requires room { length c.old.gates < 2 ^ 30 - 2 ^ 15 }
    ensures of { IfOk result (IsOf c.new) }
    ensures means { IfOk result (λ l. (val : ℕ → Bool) → Solves c.new val
        → lit_value val l ≡ bytes_eq (nibbles_on val first.now) (nibbles_on val second.now)) }
    ensures grows { Grows c.old c.new }
    ensures more { length c.new.gates ≤ length c.old.gates + 9 * count }
{
    let mut all = Lit::Const(true);
    for place in 0..usize::from(count) {
        let equal = same_nibble(c, place, first, second)?;
        all = c.and(all, equal)?;
    }
    Ok(all)
}
