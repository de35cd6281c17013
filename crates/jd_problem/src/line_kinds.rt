// The kinds of a problem's lines in both versions: their first words, their order, and what their
// numbers may be and set. A line of a number is added here alone.
ghost use Rattle.std.specs.Prelude.{◌≡◌, ◌≤◌, true, None, replicate};
ghost use Rattle.jd_model.specs.ProblemLines.{number, named_as, kind_name, headers, after_headers, kinds, is_of_version, kind_of, place_of, place_after, is_in_range, mode_of, base_of, memory_of, with_said};
ghost use Rattle.jd_model.specs.ProblemTexts.{version_said};
ghost use Rattle.jd_start.specs.Parts.{values_of};
ghost use Rattle.jd_problem.specs.Problems.{problem_of};

use crate::problem::Problem;
use hp_model::Extent;
use hp_words::{Base, Mode, WordSize};
use jd_model::{LineKind, Version};
use jd_start::PART_COUNT;

/// The header with a first word.
fn header_named(word: &[u8]) -> Option<LineKind>
    ensures { result ≡ named_as kind_name headers word.now }
{
    match word {
        b"problem" => Some(LineKind::Problem),
        b"word" => Some(LineKind::Size),
        b"mode" => Some(LineKind::Mode),
        b"base" => Some(LineKind::Base),
        b"memory" => Some(LineKind::Memory),
        b"steps" => Some(LineKind::Steps),
        b"paths" => Some(LineKind::Paths),
        b"budget" => Some(LineKind::Budget),
        b"observe" => Some(LineKind::Observe),
        _ => None,
    }
}

/// The kind of line after the headers with a first word.
fn later_named(word: &[u8]) -> Option<LineKind>
    ensures { result ≡ named_as kind_name after_headers word.now }
{
    match word {
        b"fix" => Some(LineKind::Fix),
        b"assume" => Some(LineKind::Assume),
        b"first" => Some(LineKind::First),
        b"second" => Some(LineKind::Second),
        b"end" => Some(LineKind::End),
        _ => None,
    }
}

/// The kind of line with a first word, in either version.
fn kind_named(word: &[u8]) -> Option<LineKind>
    ensures { result ≡ named_as kind_name kinds word.now }
{
    match header_named(word) {
        Some(kind) => Some(kind),
        None => later_named(word),
    }
}

/// Whether a version has lines of a kind.
fn is_of_version(kind: LineKind, version: Version) -> bool
    ensures { result ≡ is_of_version kind version }
{
    match kind {
        LineKind::Memory | LineKind::Assume => version == Version::Two,
        _ => true,
    }
}

/// The kind of a line by its first word.
pub fn kind_of(version: Version, word: &[u8]) -> Option<LineKind>
    ensures { result ≡ kind_of version word.now }
{
    let kind = kind_named(word)?;
    if is_of_version(kind, version) {
        Some(kind)
    } else {
        None
    }
}

/// The place of a line among headers and section words. `fix` and `assume` have that of `first`.
pub fn place_of(kind: LineKind) -> u8
    ensures value { result ≡ place_of kind }
    ensures bound { result ≤ 11 }
{
    match kind {
        LineKind::Problem => 0,
        LineKind::Size => 1,
        LineKind::Mode => 2,
        LineKind::Base => 3,
        LineKind::Memory => 4,
        LineKind::Steps => 5,
        LineKind::Paths => 6,
        LineKind::Budget => 7,
        LineKind::Observe => 8,
        LineKind::Fix | LineKind::Assume | LineKind::First => 9,
        LineKind::Second => 10,
        LineKind::End => 11,
    }
}

/// The place of the header or section word that is due after a line.
pub fn place_after(kind: LineKind, version: Version) -> u8
    ensures value { result ≡ place_after kind version }
    ensures bound { result ≤ 12 }
{
    match kind {
        LineKind::Base => match version {
            Version::One => place_of(LineKind::Steps),
            Version::Two => place_of(LineKind::Memory),
        },
        LineKind::Fix | LineKind::Assume => place_of(LineKind::First),
        _ => place_of(kind) + 1,
    }
}

/// Whether a number is in the range of its line.
pub fn is_in_range(kind: LineKind, n: u64) -> bool
    ensures { result ≡ is_in_range kind n }
{
    match kind {
        LineKind::Problem => n == 1 || n == 2,
        LineKind::Size => 1 <= n && n <= 64,
        LineKind::Mode => n <= 2,
        LineKind::Base => n == 16 || n == 10 || n == 8 || n == 2,
        LineKind::Memory => n == 203 || n == 609,
        LineKind::Steps => 1 <= n && n <= 1000,
        LineKind::Paths => 1 <= n && n <= 65_536,
        LineKind::Budget => 1 <= n && n <= 1_048_576,
        _ => true,
    }
}

/// The version by whose rules the lines after one with a number are read.
pub fn version_said(kind: LineKind, n: u64, version: Version) -> Version
    ensures { result ≡ version_said kind (number n) version }
{
    match kind {
        LineKind::Problem => { if n == 2 { Version::Two } else { Version::One } }
        _ => version,
    }
}

/// The mode with a number.
fn mode_of(n: u64) -> Mode
    ensures { result ≡ mode_of n }
{
    if n == 0 {
        Mode::Unsigned
    } else if n == 1 {
        Mode::Ones
    } else {
        Mode::Twos
    }
}

/// The base with a number.
fn base_of(n: u64) -> Base
    ensures { result ≡ base_of n }
{
    if n == 16 {
        Base::Hex
    } else if n == 10 {
        Base::Dec
    } else if n == 8 {
        Base::Oct
    } else {
        Base::Bin
    }
}

/// The memory of so many bytes.
fn memory_of(n: u64) -> Extent
    ensures { result ≡ memory_of n }
{
    if n == 203 {
        Extent::Standard
    } else {
        Extent::Large
    }
}

/// Sets the number of a line.
pub fn set_number(problem: &mut Problem, kind: LineKind, n: u64)
    requires range { is_in_range kind n ≡ true }
    requires unfixed { values_of problem.old.fixed ≡ replicate PART_COUNT None }
    ensures set { problem_of problem.new ≡ with_said kind (number n) (problem_of problem.old) }
    ensures observed { problem.new.observed ≡ problem.old.observed }
    ensures fixed { problem.new.fixed ≡ problem.old.fixed }
{
    match kind {
        LineKind::Size => problem.size = WordSize { bits: n as u8 },
        LineKind::Mode => problem.mode = mode_of(n),
        LineKind::Base => problem.base = base_of(n),
        LineKind::Memory => problem.memory = memory_of(n),
        LineKind::Steps => problem.steps = n as u16,
        LineKind::Paths => problem.paths = n as u32,
        LineKind::Budget => problem.budget = n as u32,
        _ => {}
    }
}
