//! A walk needs one literal for each assumption of a problem, whether it holds of the start. Parts
//! are compared as whole numbers of 64 literals, with zeros above, so that words and the index
//! register can meet.
ghost use Rattle.std.specs.Prelude.{◌≡◌, ℕ, ◌+◌, ◌^◌, ◌<◌, ◌≤◌, Bool, IfOk, length, map};
ghost use Rattle.jd_model.specs.Assumptions.{against_value, holds, part_value, relates};
ghost use Rattle.jd_problem.specs.Problems.{problem_of};
ghost use Rattle.jd_circuit.specs.Meaning.{lit_value};
ghost use Rattle.jd_circuit.specs.Net.{Grows, IsOf, Solves, variables};
ghost use Rattle.jd_vectors.specs.Number.{AreOf, Inside, number};
ghost use Rattle.jd_content.specs.Meaning.{data_on};
ghost use Rattle.jd_inputs.specs.Narrow.{AreNarrow, AreWordsOf};

use jd_circuit::{Circuit, Lit, NoMemory, Rewrite};
use jd_content::{SymContent, widened};
use jd_problem::{Against, Assume, NumPart, Problem, Relation};
use jd_rows::less;
use jd_vectors::{Lits, same};

/// The word of a part, in 64 literals.
fn part_word(content: &SymContent, part: NumPart) -> Lits
    requires { AreNarrow content.now }
    ensures length { length result ≡ 64 }
    ensures inside { (n : ℕ) → AreWordsOf n content.now → Inside n result }
    ensures number { (val : ℕ → Bool)
        → number val result ≡ part_value part (data_on val content.now) }
{
    match part {
        NumPart::X => widened(&content.x, 64),
        NumPart::Y => widened(&content.y, 64),
        NumPart::Z => widened(&content.z, 64),
        NumPart::T => widened(&content.t, 64),
        NumPart::L => widened(&content.l, 64),
        NumPart::I => widened(&content.i, 64),
    }
}

/// What a part is compared with, in 64 literals.
fn against_word(content: &SymContent, right: Against) -> Lits
    requires { AreNarrow content.now }
    ensures length { length result ≡ 64 }
    ensures inside { (n : ℕ) → AreWordsOf n content.now → Inside n result }
    ensures number { (val : ℕ → Bool)
        → number val result ≡ against_value right (data_on val content.now) }
{
    match right {
        Against::Part(part) => part_word(content, part),
        Against::Number(number) => Lits::constant(64, number),
    }
}

/// Whether one number stands in a relation to another.
fn relation_lit<W: Rewrite>(
    c: &mut Circuit<'_, W>,
    relation: Relation,
    a: &Lits,
    b: &Lits,
) -> Result<Lit, NoMemory>
    requires first_length { length a.now ≡ 64 }
    requires second_length { length b.now ≡ 64 }
    requires first { AreOf c.old a.now }
    requires second { AreOf c.old b.now }
    requires room { length c.old.gates + 320 < 2 ^ 30 }
    ensures of { IfOk result (IsOf c.new) }
    ensures meaning { IfOk result (λ l. (val : ℕ → Bool) → Solves c.new val
        → lit_value val l ≡ relates relation (number val a.now) (number val b.now)) }
    ensures grows { Grows c.old c.new }
    ensures more { length c.new.gates ≤ length c.old.gates + 320 }
{
    match relation {
        Relation::Lt => {
            let l = less(c, a, b)?;
            Ok(l)
        }
        Relation::Le => {
            let above = less(c, b, a)?;
            Ok(above.opposite())
        }
        Relation::Eq => {
            let l = same(c, a, b)?;
            Ok(l)
        }
        Relation::Ne => {
            let equal = same(c, a, b)?;
            Ok(equal.opposite())
        }
    }
}

/// Whether one assumption holds.
fn assumption_lit<W: Rewrite>(
    c: &mut Circuit<'_, W>,
    content: &SymContent,
    assume: Assume,
) -> Result<Lit, NoMemory>
    requires narrow { AreNarrow content.now }
    requires words { AreWordsOf (variables c.old) content.now }
    requires room { length c.old.gates + 320 < 2 ^ 30 }
    ensures of { IfOk result (IsOf c.new) }
    ensures meaning { IfOk result (λ l. (val : ℕ → Bool) → Solves c.new val
        → lit_value val l ≡ holds assume (data_on val content.now)) }
    ensures grows { Grows c.old c.new }
    ensures more { length c.new.gates ≤ length c.old.gates + 320 }
{
    let left = part_word(content, assume.left);
    let right = against_word(content, assume.right);
    let l = relation_lit(c, assume.relation, &left, &right)?;
    Ok(l)
}

/// For each assumption of a problem, in order, the literal that it holds of the content.
pub fn assumption_lits<W: Rewrite>(
    c: &mut Circuit<'_, W>,
    content: &SymContent,
    problem: &Problem,
) -> Result<Lits, NoMemory>
    requires narrow { AreNarrow content.now }
    requires words { AreWordsOf (variables c.old) content.now }
    requires room { length c.old.gates < 2 ^ 29 }
    ensures count { IfOk result (λ ls. length ls ≡ length (problem_of problem.now).assumed) }
    ensures of { IfOk result (AreOf c.new) }
    ensures means { IfOk result (λ ls. (val : ℕ → Bool) → Solves c.new val → map (lit_value val) ls
        ≡ map (λ a. holds a (data_on val content.now)) (problem_of problem.now).assumed) }
    ensures grows { Grows c.old c.new }
    ensures more { length c.new.gates ≤ length c.old.gates + 2 ^ 15 }
{
    let assumed = problem.assumed.as_slice();
    let mut lits = Lits::new();
    for i in 0..assumed.len() {
        let l = assumption_lit(c, content, assumed[i])?;
        lits.push(l);
    }
    Ok(lits)
}
