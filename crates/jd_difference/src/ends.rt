//! What a walk says when both runs are over. Where one is late or their ends differ, the literal is
//! true and needs no gate; else it stands on the observed numbers and, where M is observed, the
//! nibbles.
ghost use Rattle.std.specs.Prelude.{◌≡◌, ℕ, ◌+◌, ◌^◌, ◌<◌, ◌≤◌, Bool, not, length, IfOk, OnOk};
ghost use Rattle.jd_model.specs.Seen.{agree_on};
ghost use Rattle.jd_problem.specs.Problems.{problem_of};
ghost use Rattle.jd_agreement.specs.Agreement.{same_parts};
ghost use Rattle.jd_books.specs.Walks.{seen_as};
ghost use Rattle.jd_circuit.specs.Meaning.{lit_value};
ghost use Rattle.jd_circuit.specs.Net.{Grows, IsOf, IsWired, Solves};
ghost use Rattle.jd_content.specs.Meaning.{data_on};
ghost use Rattle.jd_difference.specs.Ends.{IsOfRun, are_alike};

use crate::memory::same_memory;
use crate::numbers::same_numbers;
use hp_model::End;
use jd_agreement::same_end;
use jd_circuit::{Circuit, Lit, NoMemory, Rewrite};
use jd_content::SymContent;
use jd_problem::Problem;
use jd_start::{Part, register_nibbles};

/// Whether both runs ended, and in the same way.
fn are_alike(first: Option<End>, second: Option<End>) -> bool
    ensures { result ≡ are_alike first second }
{
    match first {
        None => false,
        Some(first) => match second {
            None => false,
            Some(second) => same_end(first, second),
        },
    }
}

/// The literal that is true exactly where the observed parts of two contents are the same.
fn same_parts<W: Rewrite>(
    c: &mut Circuit<'_, W>,
    problem: &Problem,
    first: &SymContent,
    second: &SymContent,
) -> Result<Lit, NoMemory>
    requires first { IsOfRun (problem_of problem.now) c.old first.now }
    requires second { IsOfRun (problem_of problem.now) c.old second.now }
    requires room { length c.old.gates < 2 ^ 29 }
    ensures of { IfOk result (IsOf c.new) }
    ensures means { IfOk result (λ l. (val : ℕ → Bool) → Solves c.new val → lit_value val l
        ≡ same_parts (problem_of problem.now).observed (data_on val first.now) (data_on val second.now)) }
    ensures grows { Grows c.old c.new }
    ensures more { length c.new.gates ≤ length c.old.gates + 2 ^ 14 }
{
    let count = register_nibbles(problem.memory, problem.blocks());
    let numbers = same_numbers(c, &problem.observed, first, second)?;
    if !problem.observed.contains(Part::M) {
        return Ok(numbers);
    }
    let memory = same_memory(c, count, &first.nibbles, &second.nibbles)?;
    let same = c.and(numbers, memory)?;
    Ok(same)
}

/// The literal that is true exactly where two runs of a problem aren't seen the same. Each run is told
/// by its end, which is None where it is late, and by the literals there. It adds at most 2^14 gates.
pub fn difference<W: Rewrite>(
    c: &mut Circuit<'_, W>,
    problem: &Problem,
    first: Option<End>,
    first_content: &SymContent,
    second: Option<End>,
    second_content: &SymContent,
) -> Result<Lit, NoMemory>
    requires first { IsOfRun (problem_of problem.now) c.old first_content.now }
    requires second { IsOfRun (problem_of problem.now) c.old second_content.now }
    requires room { length c.old.gates < 2 ^ 29 }
    ensures of { IfOk result (IsOf c.new) }
    ensures means { IfOk result (λ l. (val : ℕ → Bool) → Solves c.new val → lit_value val l
        ≡ not (agree_on (problem_of problem.now).observed (seen_as first (data_on val first_content.now)) (seen_as second (data_on val second_content.now)))) }
    ensures grows { Grows c.old c.new }
    ensures wired { OnOk result (IsWired c.new.inputs c.new.gates) }
    ensures more { length c.new.gates ≤ length c.old.gates + 2 ^ 14 }
{
    if !are_alike(first, second) {
        // `mark` tells that the circuit is wired.
        let _ = c.mark();
        return Ok(Lit::Const(true));
    }
    let same = same_parts(c, problem, first_content, second_content)?;
    // `mark` tells that the circuit is wired.
    let _ = c.mark();
    Ok(same.opposite())
}
