//! LRAT lines as text. The numbers go into lists that may be kept from line to line, so that a
//! check takes no memory a line.
ghost use Rattle.std.specs.Prelude.{◌≡◌, ◌≤◌, length, map, IfOk};
ghost use Rattle.jd_text.specs.Words.{words_of};
ghost use Rattle.jd_logic.specs.LratText.{deletion_of, derivation_of, line_of};
ghost use Rattle.jd_lrat.specs.LineTexts.{IsLastList, IsRead, IsReadIn, HasRanges, line_in};
ghost use Rattle.jd_text.specs.Places.{words_at};

use crate::ProofText;
use crate::integers::{Next, next_integer};
use crate::number_lists::{Number, read_numbers};
use crate::numerals::{after_word, is_done};
use jd_logic::{Clause, Hints, Ids, Line};
use std::alloc::Global;

/// Reads the numbers from a place on, up to a 0 that is the last word.
fn read_last_numbers<N: Number>(text: &[u8], at: usize, list: &mut Vec<N>) -> Result<(), ProofText>
    requires { at ≤ length text.now }
    ensures { IsLastList N.fits (map N.value list.new.items) text.now at result }
{
    let end = read_numbers(text, at, list)?;
    if is_done(text, end) {
        Ok(())
    } else {
        Err(ProofText::Syntax)
    }
}

/// The numbers of a line, in lists that are kept from line to line.
#[derive(Drop)]
pub struct Lists {
    pub literals: Vec<i32>,
    pub hints: Vec<i64>,
    pub ids: Vec<u64>,
}

/// What a line is, whose numbers stand in its lists.
#[derive(Clone, Copy)]
pub enum Head {
    /// A derivation with this id, the literals and the hints.
    Derive(u64),
    /// A deletion of the ids.
    Delete,
}

impl Lists {
    pub fn new(alloc: Global) -> Lists {
        Lists {
            literals: Vec::new(alloc),
            hints: Vec::new(alloc),
            ids: Vec::new(alloc),
        }
    }

    /// The deletion that the words from a place on are, after their `d`.
    fn read_deletion(&mut self, text: &[u8], at: usize) -> Result<Head, ProofText>
        requires { at ≤ length text.now }
        ensures line { IsReadIn (deletion_of (words_at text.now at)) result self.new }
        ensures ranges { IfOk result (λ head. HasRanges head self.new) }
    {
        read_last_numbers(text, at, &mut self.ids)?;
        Ok(Head::Delete)
    }

    /// The derivation that the words from a place on are, after their id.
    fn read_derivation(&mut self, id: u64, text: &[u8], at: usize) -> Result<Head, ProofText>
        requires { at ≤ length text.now }
        ensures line { IsReadIn (derivation_of id (words_at text.now at)) result self.new }
        ensures ranges { IfOk result (λ head. HasRanges head self.new) }
    {
        let end = read_numbers(text, at, &mut self.literals)?;
        read_last_numbers(text, end, &mut self.hints)?;
        Ok(Head::Derive(id))
    }

    /// Reads the LRAT line that a text is, its line feed left out, in place of what the lists have.
    pub fn read(&mut self, text: &[u8]) -> Result<Head, ProofText>
        ensures line { IsReadIn (line_of (words_of text.now)) result self.new }
        ensures ranges { IfOk result (λ head. HasRanges head self.new) }
    {
        match next_integer(text, 0) {
            Next::End => Err(ProofText::Syntax),
            Next::Bad => Err(ProofText::Syntax),
            Next::Zero(_) => Err(ProofText::Syntax),
            Next::Number(z, at) => match u64::from_integer(z) {
                None => Err(ProofText::Syntax),
                Some(id) => match after_word(b"d", text, at) {
                    None => self.read_derivation(id, text, at),
                    Some(end) => self.read_deletion(text, end),
                },
            },
        }
    }

    /// The line that was read.
    fn into_line(self, head: Head) -> Line
        requires { HasRanges head self }
        ensures { result ≡ line_in head self }
    {
        match head {
            Head::Derive(id) => Line::Derive {
                id,
                clause: Clause::new(self.literals),
                hints: Hints::new(self.hints),
            },
            Head::Delete => Line::Delete {
                ids: Ids::new(self.ids),
            },
        }
    }
}

/// The LRAT line that a text is, its line feed left out.
pub fn read_line(alloc: Global, text: &[u8]) -> Result<Line, ProofText>
    ensures { IsRead (line_of (words_of text.now)) result }
{
    let mut lists = Lists::new(alloc);
    let head = lists.read(text)?;
    Ok(lists.into_line(head))
}
