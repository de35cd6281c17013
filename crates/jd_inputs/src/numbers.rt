//! Each word or flag of a start takes the next inputs where a problem leaves it free, and is a
//! constant where it's fixed. The count of inputs taken goes along, so that parts follow the order
//! of bits.
ghost use Rattle.std.specs.Prelude.{◌≡◌, ℕ, ◌+◌, ◌^◌, ◌≤◌, Bool, List, drop, length};
ghost use Rattle.jd_model.specs.Problems.{field, free_width, number_in_field, part_limit};
ghost use Rattle.jd_start.specs.Parts.{place_of};
ghost use Rattle.jd_problem.specs.Problems.{problem_of};
ghost use Rattle.jd_circuit.specs.Net.{at};
ghost use Rattle.jd_vectors.specs.Number.{Inside, number};
ghost use Rattle.jd_inputs.specs.Inputs.{inputs_from};

use jd_circuit::Lit;
use jd_problem::{Part, Problem};
use jd_vectors::Lits;

/// So many inputs, after those that are taken.
fn input_lits(width: u8, taken: u32) -> Lits
    requires width { width ≤ 64 }
    requires taken { taken ≤ 2 ^ 20 }
    ensures { result ≡ inputs_from width taken }
{
    let mut lits = Lits::new();
    for i in 0..width {
        lits.push(Lit::Var(taken + i as u32 + 1));
    }
    lits
}

/// The literals of a part's number: inputs where it is free, which are then taken, and else its fixed
/// value.
pub fn part_lits(problem: &Problem, taken: &mut u32, width: u8, part: Part) -> Lits
    requires width { width ≤ 64 }
    requires room { taken.old ≤ 2 ^ 19 }
    requires limit { part_limit problem.now.size.bits (place_of part) ≡ 2 ^ width }
    ensures taken { taken.new
        ≡ taken.old + free_width (field (problem_of problem.now) width (place_of part)) }
    ensures more { taken.new ≤ taken.old + width }
    ensures length { length result ≡ width }
    ensures inside { (n : ℕ) → taken.new ≤ n → Inside n result }
    ensures number { (bits : List Bool) → taken.new ≤ length bits → number (at bits) result
        ≡ number_in_field (field (problem_of problem.now) width (place_of part))
        (drop taken.old bits) }
{
    match problem.fixed.value(part) {
        None => {
            let lits = input_lits(width, *taken);
            *taken += width as u32;
            lits
        }
        Some(value) => Lits::constant(width, value),
    }
}
