//! Why pieces stay: each place and row with the judge's answer.
ghost use Rattle.std.specs.Prelude.{◌≡◌, ◌∷◌, ◌++◌, [], length, IfOk, OnErr, OnOk};

use hp_io::NoMemory;
use jd_judge::Judged;
use std::alloc::Global;

/// A piece that stays.
#[derive(Drop)]
pub struct Refusal {
    /// The line at which it begins, counted from 1.
    pub place: u16,
    /// The number of the table's row.
    pub row: u8,
    /// What the judge says of the routine without the piece. It is never Equal.
    pub answer: Judged,
}

/// Refusals in order of place and then row.
#[derive(Drop)]
pub struct Refusals {
    pub refusals: Vec<Refusal>,
}

impl Refusals {
    /// No refusals.
    pub(crate) fn new(alloc: Global) -> Refusals
        ensures { result.refusals.items ≡ [] }
    {
        Refusals {
            refusals: Vec::new(alloc),
        }
    }

    /// How many there are.
    pub fn len(&self) -> usize
        ensures { result ≡ length self.now.refusals.items }
    {
        self.refusals.len()
    }

    /// The refusals as a slice.
    pub fn as_slice(&self) -> &[Refusal]
        ensures { result.now ≡ self.now.refusals.items }
    {
        self.refusals.as_slice()
    }

    /// Puts a refusal at the end. After NoMemory the list is as before.
    pub(crate) fn push(&mut self, refusal: Refusal) -> Result<(), NoMemory>
        ensures pushed { OnOk result (self.new.refusals.items ≡ self.old.refusals.items ++ refusal ∷ []) }
        ensures unchanged { OnErr result (self.new.refusals.items ≡ self.old.refusals.items) }
    {
        match self.refusals.push(refusal) {
            Ok(()) => Ok(()),
            Err(_) => Err(NoMemory),
        }
    }

    /// These refusals and then others.
    pub(crate) fn followed_by(self, later: Refusals) -> Result<Refusals, NoMemory>
        ensures { IfOk result (λ all. all.refusals.items ≡ self.refusals.items ++ later.refusals.items) }
    {
        let mut refusals = self.refusals;
        let mut more = later.refusals;
        match refusals.append(&mut more) {
            Ok(()) => Ok(Refusals { refusals }),
            Err(_) => Err(NoMemory),
        }
    }
}
