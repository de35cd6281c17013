//! The data with which each symbolic run begins, for all starts of a problem at once. Words, flags
//! and nibbles take inputs in the order of a start's bits, so that both runs share them and no gate
//! is needed.
ghost use Rattle.std.specs.Prelude.{◌≡◌, ℕ, ◌+◌, ◌*◌, ◌<◌, ◌≤◌, Bool, IfOk, List, drop, length};
ghost use Rattle.jd_model.specs.Problems.{free_bits, free_widths, nibble_count, nibble_fields, numbers_in, start_of};
ghost use Rattle.jd_problem.specs.Problems.{problem_of};
ghost use Rattle.jd_circuit.specs.Net.{at};
ghost use Rattle.jd_vectors.specs.Number.{Inside};
ghost use Rattle.jd_content.specs.Meaning.{Fits, data_on, nibbles_on};
ghost use Rattle.jd_inputs.specs.Inputs.{AreWords, flag_fields, flag_numbers, word_fields, word_numbers};

use crate::nibbles::{free_nibbles, zero_nibbles};
use crate::numbers::part_lits;
use jd_circuit::{Lit, NoMemory};
use jd_content::{NibbleLits, SymContent};
use jd_problem::{Part, Problem};
use jd_start::register_nibbles;
use jd_vectors::Lits;
use std::alloc::Global;

/// The stack, LAST X and the index register.
#[derive(Drop)]
pub struct Words {
    x: Lits,
    y: Lits,
    z: Lits,
    t: Lits,
    l: Lits,
    i: Lits,
}

/// The literals of the words.
fn start_words(problem: &Problem, taken: &mut u32) -> Words
    requires { taken.old ≡ 0 }
    ensures taken { taken.new ≡ free_widths (word_fields (problem_of problem.now)) }
    ensures bound { taken.new ≤ 384 }
    ensures fits { (n : ℕ) → taken.new ≤ n → AreWords n problem.now.size.bits result }
    ensures numbers { (bits : List Bool) → taken.new ≤ length bits
        → word_numbers (at bits) result ≡ numbers_in (word_fields (problem_of problem.now)) bits }
{
    let size = problem.size.bits;
    let x = part_lits(problem, taken, size, Part::X);
    let y = part_lits(problem, taken, size, Part::Y);
    let z = part_lits(problem, taken, size, Part::Z);
    let t = part_lits(problem, taken, size, Part::T);
    let l = part_lits(problem, taken, size, Part::L);
    let i = part_lits(problem, taken, 64, Part::I);
    Words { x, y, z, t, l, i }
}

/// The literals of the flags.
fn start_flags(problem: &Problem, taken: &mut u32) -> [Lit; 6]
    requires { taken.old ≤ 384 }
    ensures taken { taken.new ≡ taken.old + free_widths (flag_fields (problem_of problem.now)) }
    ensures bound { taken.new ≤ 390 }
    ensures inside { (n : ℕ) → taken.new ≤ n → Inside n result }
    ensures length { length result ≡ 6 }
    ensures numbers { (bits : List Bool) → taken.new ≤ length bits → flag_numbers (at bits) result
        ≡ numbers_in (flag_fields (problem_of problem.now)) (drop taken.old bits) }
{
    let first = part_lits(problem, taken, 1, Part::F0);
    let second = part_lits(problem, taken, 1, Part::F1);
    let third = part_lits(problem, taken, 1, Part::F2);
    let fourth = part_lits(problem, taken, 1, Part::F3);
    let carry = part_lits(problem, taken, 1, Part::C);
    let range = part_lits(problem, taken, 1, Part::G);
    [
        first.at(0),
        second.at(0),
        third.at(0),
        fourth.at(0),
        carry.at(0),
        range.at(0),
    ]
}

/// The literals of the nibbles.
fn start_nibbles(alloc: Global, problem: &Problem, taken: u32) -> Result<NibbleLits, NoMemory>
    requires { taken ≤ 390 }
    ensures length { IfOk result (λ ns. length ns ≡ 4 * nibble_count (problem_of problem.now)) }
    ensures inside { IfOk result (λ ns. (n : ℕ)
        → taken + free_widths (nibble_fields (problem_of problem.now)) ≤ n → Inside n ns) }
    ensures numbers { IfOk result (λ ns. (bits : List Bool)
        → taken + free_widths (nibble_fields (problem_of problem.now)) ≤ length bits
        → nibbles_on (at bits) ns
        ≡ numbers_in (nibble_fields (problem_of problem.now)) (drop taken bits)) }
{
    let count = register_nibbles(problem.memory, problem.blocks());
    match problem.fixed.value(Part::M) {
        None => {
            let nibbles = free_nibbles(alloc, count, taken)?;
            Ok(nibbles)
        }
        Some(_) => {
            let nibbles = zero_nibbles(alloc, count)?;
            Ok(nibbles)
        }
    }
}

/// The literals of a problem's starts, in the order of their bits. They mean, on each list of bits, the
/// start that has these bits.
pub fn start_content(alloc: Global, problem: &Problem) -> Result<SymContent, NoMemory>
    ensures fits { IfOk result (λ c. (n : ℕ) → free_bits (problem_of problem.now) ≤ n
        → Fits n problem.now.size.bits c) }
    ensures nibbles { IfOk result (λ c. length c.nibbles
        ≡ 4 * nibble_count (problem_of problem.now)) }
    ensures means { IfOk result (λ c. (bits : List Bool)
        → length bits ≡ free_bits (problem_of problem.now)
        → data_on (at bits) c ≡ start_of (problem_of problem.now) bits) }
{
    let mut taken = 0;
    let words = start_words(problem, &mut taken);
    let flags = start_flags(problem, &mut taken);
    let nibbles = start_nibbles(alloc, problem, taken)?;
    let Words { x, y, z, t, l, i } = words;
    Ok(SymContent {
        x,
        y,
        z,
        t,
        l,
        i,
        flags,
        nibbles,
    })
}
