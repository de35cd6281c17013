//! How many paths a problem has where every question is answered both ways, whether a start goes
//! there or not. Each place is asked twice, to see that it says the same, and a long walk is given
//! up.
use anyhow::{Result, ensure};
use jd_circuit::{NoMemory, NoRules};
use jd_problem::Problem;
use jd_walk::{Kind, Leaf, Next, Walk};
use std::alloc::Global;

/// At how many places a walk may stand here.
pub const PLACES: u32 = 2_000;

/// What is counted along a walk: the paths, the questions, and the most answers and guards of a path.
#[derive(Drop)]
pub struct Counts {
    pub paths: u32,
    pub questions: u32,
    pub longest: usize,
    pub guards: usize,
}

impl Counts {
    /// Counts a path by its leaf.
    fn take(&mut self, leaf: &Leaf) {
        self.paths = self.paths.saturating_add(1);
        self.longest = self.longest.max(leaf.path.as_slice().len());
        self.guards = self.guards.max(leaf.guards.as_slice().len());
    }
}

/// Whether a walk says the same of the place where it stands when it is asked once more.
fn says_the_same(walk: &mut Walk<'_, NoRules>) -> Result<bool, NoMemory> {
    let first = walk.next()?;
    let second = walk.next()?;
    Ok(first == second)
}

/// Answers the question of the place with no, or counts its path and goes back. False where no path is
/// left.
fn go_on(walk: &mut Walk<'_, NoRules>, counts: &mut Counts) -> Result<bool, NoMemory> {
    match walk.next()? {
        Next::Ask(_) => {
            walk.answer(false)?;
            counts.questions = counts.questions.saturating_add(1);
            Ok(true)
        }
        Next::Done(_) => {
            let leaf = walk.leaf(Kind::Whole)?;
            counts.take(&leaf);
            Ok(walk.back())
        }
    }
}

/// What is counted along a walk through all paths, or None where it has more places than PLACES.
pub fn count(alloc: Global, problem: &Problem) -> Result<Option<Counts>> {
    let mut walk = Walk::new(alloc, problem, &NoRules)?;
    let mut counts = Counts {
        paths: 0,
        questions: 0,
        longest: 0,
        guards: 0,
    };
    for _ in 0..PLACES {
        ensure!(says_the_same(&mut walk)?, "a place says something else");
        if !go_on(&mut walk, &mut counts)? {
            return Ok(Some(counts));
        }
    }
    Ok(None)
}
