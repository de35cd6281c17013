//! What a line of a certificate says at a spot, and the spot after it. Nothing but the spot is
//! changed, and only a line of a proof, which `jd_lrat` reads, takes memory.
ghost use Rattle.std.specs.Prelude.{◌≡◌, ◌+◌, ◌<◌, ◌≤◌, ◌^◌, false};
ghost use Rattle.jd_text.specs.Words.{words_of};
ghost use Rattle.jd_trees.specs.CertLines.{said, is_whole, spoken_line, begun_line, first_line, tree_line, log_line, proof_line};
ghost use Rattle.jd_cert.specs.Lines.{IsSaid};

use crate::words::{is_first, is_only};
use jd_lrat::{ProofText, read_line};
use jd_text::next_word;
use jd_trees::{CertEvent, Spot};
use std::alloc::Global;

/// A line where the first line is due.
fn first_line(spot: &mut Spot, line: &[u8]) -> Result<CertEvent, ProofText>
    ensures said { IsSaid (first_line spot.old (words_of line.now)) result spot.new }
    ensures due { spot.new.due ≤ spot.old.due + 1 }
{
    if !is_first(line) {
        return Err(ProofText::Syntax);
    }
    spot.begun = true;
    Ok(CertEvent::Nothing)
}

/// A line where a tree is due, or none.
fn tree_line(spot: &mut Spot, line: &[u8]) -> Result<CertEvent, ProofText>
    requires { spot.old.due + 1 < 2 ^ 64 }
    ensures said { IsSaid (tree_line spot.old (words_of line.now)) result spot.new }
    ensures due { spot.new.due ≤ spot.old.due + 1 }
{
    if spot.due == 0 {
        return Err(ProofText::Syntax);
    }
    if is_only(b"fork", line) {
        spot.due += 1;
        return Ok(CertEvent::Fork);
    }
    if is_only(b"leaf", line) {
        spot.inside = true;
        return Ok(CertEvent::Leaf);
    }
    if is_only(b"cut", line) {
        spot.inside = true;
        return Ok(CertEvent::Cut);
    }
    Err(ProofText::Syntax)
}

/// A line of a proof.
fn proof_line(alloc: Global, spot: &mut Spot, line: &[u8]) -> Result<CertEvent, ProofText>
    ensures said { IsSaid (proof_line spot.old (words_of line.now)) result spot.new }
    ensures due { spot.new.due ≤ spot.old.due + 1 }
{
    match read_line(alloc, line) {
        Ok(proof) => Ok(CertEvent::Proof(proof)),
        Err(fault) => Err(fault),
    }
}

/// A line in a leaf or a cut.
fn log_line(alloc: Global, spot: &mut Spot, line: &[u8]) -> Result<CertEvent, ProofText>
    ensures said { IsSaid (log_line spot.old (words_of line.now)) result spot.new }
    ensures due { spot.new.due ≤ spot.old.due + 1 }
{
    if is_only(b"end", line) {
        spot.due = spot.due.saturating_sub(1);
        spot.inside = false;
        return Ok(CertEvent::End);
    }
    proof_line(alloc, spot, line)
}

/// A line after the first.
fn begun_line(alloc: Global, spot: &mut Spot, line: &[u8]) -> Result<CertEvent, ProofText>
    requires { spot.old.due + 1 < 2 ^ 64 }
    ensures said { IsSaid (begun_line spot.old (words_of line.now)) result spot.new }
    ensures due { spot.new.due ≤ spot.old.due + 1 }
{
    if spot.inside {
        log_line(alloc, spot, line)
    } else {
        tree_line(spot, line)
    }
}

/// A line that has words.
fn spoken_line(alloc: Global, spot: &mut Spot, line: &[u8]) -> Result<CertEvent, ProofText>
    requires { spot.old.due + 1 < 2 ^ 64 }
    ensures said { IsSaid (spoken_line spot.old (words_of line.now)) result spot.new }
    ensures due { spot.new.due ≤ spot.old.due + 1 }
{
    if spot.begun {
        begun_line(alloc, spot, line)
    } else {
        first_line(spot, line)
    }
}

/// What a line says, and the spot after it.
pub fn say(alloc: Global, spot: &mut Spot, line: &[u8]) -> Result<CertEvent, ProofText>
    requires { spot.old.due + 1 < 2 ^ 64 }
    ensures said { IsSaid (said spot.old (words_of line.now)) result spot.new }
    ensures due { spot.new.due ≤ spot.old.due + 1 }
{
    if next_word(line, 0).is_none() {
        return Ok(CertEvent::Nothing);
    }
    spoken_line(alloc, spot, line)
}

/// Whether the tree is whole.
pub fn is_whole(spot: &Spot) -> bool
    ensures { result ≡ is_whole spot.now }
{
    spot.begun && spot.due == 0 && !spot.inside
}
