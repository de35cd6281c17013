// A problem as far as it is read. Where the reading stands is the place of the line that is due;
// the other files ask for it by name.
ghost use Rattle.std.specs.Prelude.{◌≡◌, ◌<◌, ◌≤◌, false, None, replicate};
ghost use Rattle.jd_start.specs.Parts.{marks_of, values_of};
ghost use Rattle.jd_start.specs.declared.parts.TheConstants.{PART_COUNT};

use crate::line_kinds::place_of;
use crate::problem::Problem;
use hp_asm::Routine;
use hp_model::Extent;
use hp_words::{Base, Mode, WordSize};
use jd_model::{LineKind, Version};
use jd_start::{Assumed, Fixed, Parts};

/// The version by whose rules it is read, the place of the header or section word that is due, and
/// what the lines said. What no line has said yet is the least of its range.
#[derive(Drop)]
pub struct Reading {
    pub version: Version,
    pub due: u8,
    pub problem: Problem,
    pub ghost few: { due ≤ 12 },
    pub ghost unobserved: { due < 9 → marks_of problem.observed ≡ replicate PART_COUNT false },
    pub ghost unfixed: { due < 9 → values_of problem.fixed ≡ replicate PART_COUNT None },
}

impl Reading {
    ghost use Rattle.jd_model.specs.ProblemTexts.{nothing_read, is_before_first, is_in_first, is_whole};
    ghost use Rattle.jd_problem.specs.Readings.{reading_of};

    /// The reading before any line.
    pub fn new() -> Reading
        ensures { reading_of result ≡ nothing_read }
    {
        Reading {
            version: Version::One,
            due: 0,
            problem: Problem {
                size: WordSize { bits: 1 },
                mode: Mode::Unsigned,
                base: Base::Hex,
                memory: Extent::Standard,
                steps: 1,
                paths: 1,
                budget: 1,
                observed: Parts::none(),
                fixed: Fixed::none(),
                assumed: Assumed::new(),
                first: Routine::new(),
                second: Routine::new(),
            },
        }
    }

    /// Whether no routine was begun.
    pub fn is_before_first(&self) -> bool
        ensures { result ≡ is_before_first (reading_of self.now) }
    {
        self.due < place_of(LineKind::Second)
    }

    /// Whether the first routine was begun, and not the second.
    pub fn is_in_first(&self) -> bool
        ensures { result ≡ is_in_first (reading_of self.now) }
    {
        self.due == place_of(LineKind::Second)
    }

    /// Whether the problem was read up to its end.
    pub fn has_ended(&self) -> bool
        ensures { result ≡ is_whole (reading_of self.now) }
    {
        self.due == place_of(LineKind::End) + 1
    }
}
