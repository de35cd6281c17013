//! The problem as callers hold it, with its ranges as facts of the type, and what it says of
//! starts.
ghost use Rattle.std.specs.Prelude.{◌≡◌, ◌≤◌, true, length};
ghost use Rattle.hp_model.specs.State.{blocks_of};
ghost use Rattle.jd_model.specs.Assembly.{IsRoutine};
ghost use Rattle.jd_model.specs.Problems.{are_fixed_from};
ghost use Rattle.jd_start.specs.Assumptions.{AreAssumed};
ghost use Rattle.jd_start.specs.Parts.{values_of};

use crate::fields::{are_in_fields, free_widths, numbers_in};
use crate::problem_fields::{are_nibbles, content_fields, free_nibble_bits, nibbles_in};
use hp_asm::Routine;
use hp_model::Extent;
use hp_words::{Base, Mode, WordSize};
use jd_start::{
    Assumed, Bits, Fixed, MOST_BITS, MOST_BLOCKS, Parts, Start, content_numbers, meets, start_with,
};

/// Whether two routines agree from each start: with how many bits, in which mode and base and with
/// how much memory they run, for at most how many steps each, which parts of the outcome are
/// observed, which parts of a start are fixed, and what is assumed of a start. `paths` and `budget`
/// bound the work of a judge.
#[derive(Drop)]
pub struct Problem {
    pub size: WordSize,
    pub mode: Mode,
    pub base: Base,
    /// The memory of the machine: 203 or 609 bytes.
    pub memory: Extent,
    /// The lines that each run may do, 1 to 1,000.
    pub steps: u16,
    /// The paths that may be walked, 1 to 65,536.
    pub paths: u32,
    /// The lines of proof that one question may take, 1 to 1,048,576.
    pub budget: u32,
    pub observed: Parts,
    pub fixed: Fixed,
    /// What holds of each start, at most 64 comparisons.
    pub assumed: Assumed,
    pub first: Routine,
    pub second: Routine,
    pub ghost steps_least: { 1 ≤ steps },
    pub ghost steps_most: { steps ≤ 1000 },
    pub ghost paths_least: { 1 ≤ paths },
    pub ghost paths_most: { paths ≤ 65_536 },
    pub ghost budget_least: { 1 ≤ budget },
    pub ghost budget_most: { budget ≤ 1_048_576 },
    pub ghost fixed_within: { are_fixed_from size.bits 0 (values_of fixed) ≡ true },
    pub ghost assumed_within: { AreAssumed assumed },
}

/// The blocks of seven bytes that a routine takes.
fn blocks_of(routine: &Routine) -> u8
    ensures value { result ≡ blocks_of (length routine.now) }
    ensures bound { result ≤ MOST_BLOCKS }
    ensures routine { IsRoutine routine.now }
{
    ((routine.codes().len() + 6) / 7) as u8
}

impl Problem {
    ghost use Rattle.std.specs.Prelude.{◌≡◌, ◌≤◌, length, true};
    ghost use Rattle.jd_model.specs.Problems.{IsProblem, blocks, free_bits, in_range, allows, start_of};
    ghost use Rattle.jd_problem.specs.Problems.{problem_of};
    ghost use Rattle.jd_start.specs.Starts.{start_data};

    /// The blocks of seven bytes that belong to the program in both runs, which are those of the longer routine.
    pub fn blocks(&self) -> u8
        ensures value { result ≡ blocks (problem_of self.now) }
        ensures bound { result ≤ MOST_BLOCKS }
        ensures ranges { IsProblem (problem_of self.now) }
    {
        blocks_of(&self.first).max(blocks_of(&self.second))
    }

    /// Another problem that is the same.
    pub fn copy(&self) -> Problem
        ensures { problem_of result ≡ problem_of self.now }
    {
        Problem {
            size: self.size,
            mode: self.mode,
            base: self.base,
            memory: self.memory,
            steps: self.steps,
            paths: self.paths,
            budget: self.budget,
            observed: self.observed,
            fixed: self.fixed,
            assumed: self.assumed.copy(),
            first: self.first.copy(),
            second: self.second.copy(),
        }
    }

    /// How many bits of a start are free.
    pub fn free_bits(&self) -> u32
        ensures value { result ≡ free_bits (problem_of self.now) }
        ensures bound { result ≤ MOST_BITS }
    {
        free_widths(&content_fields(self)) + free_nibble_bits(self)
    }

    /// Whether a start has words of the problem's size, as many nibbles as its runs have, and the fixed
    /// parts as they are fixed.
    pub fn in_range(&self, start: &Start) -> bool
        ensures { result ≡ in_range (problem_of self.now) (start_data start.now) }
    {
        are_in_fields(&content_fields(self), &content_numbers(start))
            && are_nibbles(self, start.nibbles.as_slice())
    }

    /// Whether a start is in range and meets the assumptions.
    pub fn allows(&self, start: &Start) -> bool
        ensures { result ≡ allows (problem_of self.now) (start_data start.now) }
    {
        self.in_range(start) && meets(&self.assumed, &start.content)
    }

    /// The start in range that has these free bits. Assumptions play no part.
    pub fn start_of(&self, bits: &Bits) -> Start
        requires { length bits.now ≡ free_bits (problem_of self.now) }
        ensures start { start_data result ≡ start_of (problem_of self.now) bits.now }
        ensures ranged { in_range (problem_of self.now) (start_data result) ≡ true }
    {
        let bits = bits.as_slice();
        let fields = content_fields(self);
        let content = numbers_in(&fields, bits);
        let nibbles = nibbles_in(self, bits, free_widths(&fields) as usize);
        start_with(content.as_slice(), nibbles)
    }
}
