//! The literal that is true where a run doesn't meet a spec: where it is late, ends by an error, or
//! gives something else.
ghost use Rattle.std.specs.Prelude.{◌≡◌, ℕ, ◌+◌, ◌^◌, ◌<◌, ◌≤◌, Bool, not, length, IfOk};
ghost use Rattle.jd_circuit.specs.Meaning.{lit_value};
ghost use Rattle.jd_circuit.specs.Net.{Grows, IsOf, Solves, variables};
ghost use Rattle.jd_content.specs.Meaning.{Fits, data_on};
ghost use Rattle.jd_difference.specs.Ends.{HasShape};
ghost use Rattle.jd_gives.specs.Gives.{are_given, meets_seen};

use hp_model::End;
use jd_circuit::{Circuit, Lit, NoMemory, Rewrite};
use jd_content::SymContent;
use jd_gives::given_lit;
use jd_spec_texts::Spec;
use jd_walk::{Difference, SymEnd};

/// That a run doesn't meet a spec. The second routine plays no part.
#[derive(Drop)]
pub struct Unmet<'s> {
    pub spec: &'s Spec,
}

/// The literal that is true exactly where an end doesn't give what is asked.
fn not_given<W: Rewrite>(
    c: &mut Circuit<'_, W>,
    spec: &Spec,
    start: &SymContent,
    end: &SymContent,
) -> Result<Lit, NoMemory>
    requires start { Fits (variables c.old) spec.now.problem.size.bits start.now }
    requires end { HasShape (variables c.old) end.now }
    requires room { length c.old.gates < 2 ^ 29 }
    ensures of { IfOk result (IsOf c.new) }
    ensures means { IfOk result (λ l. (val : ℕ → Bool) → Solves c.new val
        → lit_value val l ≡ not (are_given spec.now.gives (data_on val start.now) (data_on val end.now))) }
    ensures grows { Grows c.old c.new }
    ensures more { length c.new.gates ≤ length c.old.gates + 2 ^ 27 }
{
    let given = given_lit(c, spec.gives.as_slice(), start, end)?;
    Ok(given.opposite())
}

impl Difference for Unmet<'_> {
    ghost differs = { λ u s first second. not (meets_seen u.spec.now.gives s first) };

    ghost size = { λ u. u.spec.now.problem.size.bits };

    fn literal<W: Rewrite>(
        &self,
        c: &mut Circuit<'_, W>,
        start: &SymContent,
        first: &SymEnd,
        _second: &SymEnd,
    ) -> Result<Lit, NoMemory> {
        match first {
            SymEnd::Late => Ok(Lit::Const(true)),
            SymEnd::Ended(end, content) => match end {
                End::Error(_) => Ok(Lit::Const(true)),
                End::Return => {
                    let l = not_given(c, self.spec, start, content)?;
                    Ok(l)
                }
                End::Halt => {
                    let l = not_given(c, self.spec, start, content)?;
                    Ok(l)
                }
            },
        }
    }
}
