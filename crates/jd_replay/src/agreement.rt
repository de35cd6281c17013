// Whether two runs are seen the same, part by part, without the text of either.
ghost use Rattle.std.specs.Prelude.{◌≡◌, ◌<◌, bytes_eq};
ghost use Rattle.jd_model.specs.Seen.{agree_on};
ghost use Rattle.jd_start.specs.Parts.{marks_of};
ghost use Rattle.jd_start.specs.Starts.{start_data};
ghost use Rattle.jd_agreement.specs.Agreement.{same_at, same_numbers, same_parts};
ghost use Rattle.jd_replay.specs.Seen.{seen_of};

use crate::seen::Seen;
use jd_agreement::same_end;
use jd_problem::Problem;
use jd_start::{CONTENT_NUMBERS, Nibbles, Part, Parts, Start, content_numbers, part_at};

/// Whether the numbers at a place are the same, if that part is observed.
fn same_at(
    observed: &Parts,
    place: usize,
    first: &[u64; CONTENT_NUMBERS],
    second: &[u64; CONTENT_NUMBERS],
) -> bool
    requires { place < CONTENT_NUMBERS }
    ensures { result ≡ same_at (marks_of observed.now) first.now second.now place }
{
    !observed.contains(part_at(place)) || first[place] == second[place]
}

/// Whether the observed numbers are the same, from X to flag 5.
fn same_numbers(
    observed: &Parts,
    first: &[u64; CONTENT_NUMBERS],
    second: &[u64; CONTENT_NUMBERS],
) -> bool
    ensures { result ≡ same_numbers (marks_of observed.now) first.now second.now }
{
    for place in 0..CONTENT_NUMBERS {
        if !same_at(observed, place, first, second) {
            return false;
        }
    }
    true
}

/// Whether two lists of nibbles are the same.
fn same_nibbles(first: &Nibbles, second: &Nibbles) -> bool
    ensures { result ≡ bytes_eq first.now second.now }
{
    first.as_slice() == second.as_slice()
}

/// Whether the observed parts of two states are the same.
fn same_parts(observed: &Parts, first: &Start, second: &Start) -> bool
    ensures { result ≡ same_parts (marks_of observed.now) (start_data first.now) (start_data second.now) }
{
    same_numbers(observed, &content_numbers(first), &content_numbers(second))
        && (!observed.contains(Part::M) || same_nibbles(&first.nibbles, &second.nibbles))
}

/// Whether both runs ended in time and alike, with the same observed parts.
pub fn agree(problem: &Problem, first: &Seen, second: &Seen) -> bool
    ensures { result ≡ agree_on (marks_of problem.now.observed) (seen_of first.now) (seen_of second.now) }
{
    let Seen::Ended(end, state) = first else {
        return false;
    };
    let Seen::Ended(other, there) = second else {
        return false;
    };
    same_end(*end, *other) && same_parts(&problem.observed, state, there)
}
