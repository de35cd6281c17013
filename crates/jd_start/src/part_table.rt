//! The parts of a start in their order, and their names: the one table by which they are read and
//! written.
ghost use Rattle.std.specs.Prelude.{◌≡◌, ◌<◌, ◌≤◌, [], length, slice_index_or, option_map};
ghost use Rattle.jd_model.specs.ProblemLines.{part_names, part_named};
ghost use Rattle.jd_start.specs.Parts.{place_of};

use crate::parts::{PART_COUNT, Part};

const IN_ORDER: [Part; PART_COUNT] = [
    Part::X,
    Part::Y,
    Part::Z,
    Part::T,
    Part::L,
    Part::I,
    Part::F0,
    Part::F1,
    Part::F2,
    Part::F3,
    Part::C,
    Part::G,
    Part::M,
];

const NAMES: [&str; PART_COUNT] = [
    "X", "Y", "Z", "T", "L", "I", "F0", "F1", "F2", "F3", "C", "G", "M",
];

/// The part at a place.
pub fn part_at(place: usize) -> Part
    requires { place < PART_COUNT }
    ensures { place_of result ≡ place }
{
    IN_ORDER[place]
}

/// The name of the part at a place.
pub fn part_name(place: usize) -> &'static str
    requires { place < PART_COUNT }
    ensures name { result.now ≡ slice_index_or part_names place [] }
    ensures len { length result.now ≤ 2 }
{
    NAMES[place]
}

impl Part {
    /// The part with a name.
    pub fn named(word: &[u8]) -> Option<Part>
        ensures { option_map place_of result ≡ part_named word.now }
    {
        for place in 0..PART_COUNT {
            if part_name(place).as_bytes() == word {
                return Some(part_at(place));
            }
        }
        None
    }
}
