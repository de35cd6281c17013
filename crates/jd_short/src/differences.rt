//! Starts from which some routine was told apart from the source. A routine that differs by one piece
//! more mostly differs from the same starts, and two runs from a start are quick where a judgement is
//! slow.
ghost use Rattle.std.specs.Prelude.{◌≡◌, false, All, IfNone, IfSome};
ghost use Rattle.jd_books.specs.Outcomes.{IsDifference};
ghost use Rattle.jd_problem.specs.Problems.{problem_of};
ghost use Rattle.jd_start.specs.Starts.{start_data};
ghost use Rattle.jd_short.specs.Differences.{is_difference};

use jd_problem::Problem;
use jd_replay::{agree, replay};
use jd_start::{Nibbles, Start};

/// A start that is the same.
pub fn copy_of(start: &Start) -> Start
    ensures { start_data result ≡ start_data start.now }
{
    let mut nibbles = Nibbles::new();
    for nibble in start.nibbles.as_slice() {
        nibbles.push(*nibble);
    }
    Start {
        content: start.content,
        nibbles,
    }
}

/// Whether a problem allows a start and its routines don't agree from it.
fn is_difference(problem: &Problem, start: &Start) -> bool
    ensures { result ≡ is_difference (problem_of problem.now) (start_data start.now) }
{
    if !problem.allows(start) {
        return false;
    }
    let (first, second) = replay(problem, start);
    !agree(problem, &first, &second)
}

/// A copy of the first start that a problem allows and from which its routines don't agree.
pub fn first_difference(problem: &Problem, starts: &[Start]) -> Option<Start>
    ensures differs { IfSome result (λ start. IsDifference (problem_of problem.now) (start_data start)) }
    ensures none { IfNone result
        (All (λ start. is_difference (problem_of problem.now) (start_data start) ≡ false) starts.now) }
{
    for start in starts {
        if is_difference(problem, start) {
            return Some(copy_of(start));
        }
    }
    None
}
