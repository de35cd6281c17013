//! The same walks led by starts: each question is answered as a start's bits make the guards, so
//! that the paths that are taken, and the starts from which routines differ, are counted where free
//! bits are few.
ghost use Rattle.std.specs.Prelude.{◌≡◌, false};

use crate::values::{value, values};
use anyhow::{Result, bail};
use jd_circuit::{Lit, NoRules};
use jd_problem::Problem;
use jd_walk::{Kind, Leaf, Next, Walk};
use std::alloc::{AllocError, Global};

/// The most questions of a path here.
const QUESTIONS: u32 = 1_000;

/// The paths that starts take, each once, the most answers of one, and from how many starts the two
/// routines differ.
#[derive(Drop)]
pub struct Taken {
    pub starts: u32,
    pub paths: Vec<Vec<bool>>,
    pub longest: usize,
    pub differ: u32,
}

/// A literal's value on a start, in the circuit of a leaf.
fn value_on(alloc: Global, leaf: &Leaf, start: &[bool], l: Lit) -> Result<bool> {
    let values = values(alloc, leaf.gates.as_slice(), start)?;
    match value(values.as_slice(), l) {
        Some(value) => Ok(value),
        None => bail!("a literal names no variable"),
    }
}

/// Whether all guards of a walk's path are true on a start.
fn is_on_path(alloc: Global, walk: &Walk<'_, NoRules>, start: &[bool]) -> Result<bool>
    requires { walk.now.spent ≡ false }
{
    let cut = walk.leaf(Kind::Cut)?;
    for guard in cut.guards.as_slice() {
        if !value_on(alloc, &cut, start, *guard)? {
            return Ok(false);
        }
    }
    Ok(true)
}

/// Answers a question as it is on a start; or, where both runs are over, whether they differ.
fn go_on(alloc: Global, walk: &mut Walk<'_, NoRules>, start: &[bool]) -> Result<Option<bool>> {
    match walk.next()? {
        Next::Ask(_) => {
            walk.answer(false)?;
            if !is_on_path(alloc, walk, start)? && !walk.back() {
                bail!("a no can't be taken back");
            }
            Ok(None)
        }
        Next::Done(_) => {
            let leaf = walk.leaf(Kind::Whole)?;
            let differs = value_on(alloc, &leaf, start, leaf.diff)?;
            Ok(Some(differs))
        }
    }
}

/// Walks along the path of a start, and answers whether the routines differ.
fn follow(alloc: Global, walk: &mut Walk<'_, NoRules>, start: &[bool]) -> Result<bool> {
    for _ in 0..QUESTIONS {
        if let Some(differs) = go_on(alloc, walk, start)? {
            return Ok(differs);
        }
    }
    bail!("a path has too many questions")
}

/// The bits of a number, the lowest first.
fn bits_of(alloc: Global, count: u32, number: u32) -> Result<Vec<bool>, AllocError> {
    let mut bits = Vec::new(alloc);
    let mut rest = number;
    for _ in 0..count {
        bits.push(rest % 2 == 1)?;
        rest /= 2;
    }
    Ok(bits)
}

impl Taken {
    /// Keeps a start's path, unless another start took it.
    fn take(&mut self, alloc: Global, path: &[bool], differs: bool) -> Result<(), AllocError> {
        self.starts = self.starts.saturating_add(1);
        self.longest = self.longest.max(path.len());
        if differs {
            self.differ = self.differ.saturating_add(1);
        }
        if !self.paths.iter().any(|taken| taken.as_slice() == path) {
            self.paths.push(Vec::from_slice(alloc, path)?)?;
        }
        Ok(())
    }
}

/// Follows each list of so many free bits.
pub fn follow_all(alloc: Global, problem: &Problem, bits: u32) -> Result<Taken> {
    let mut taken = Taken {
        starts: 0,
        paths: Vec::new(alloc),
        longest: 0,
        differ: 0,
    };
    for number in 0..1u32.checked_shl(bits).unwrap_or(0) {
        let start = bits_of(alloc, bits, number)?;
        let mut walk = Walk::new(alloc, problem, &NoRules)?;
        let differs = follow(alloc, &mut walk, start.as_slice())?;
        taken.take(alloc, walk.path(), differs)?;
    }
    Ok(taken)
}
