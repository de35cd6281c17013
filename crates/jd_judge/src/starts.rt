//! Lists of starts, for the judge's count of paths: the starts of the leaves so far have answers of
//! their own, so that one more than the problem has paths is an answer.
ghost use Rattle.std.specs.Prelude.{◌≡◌, ◌∷◌, ◌++◌, [], length, map, OnErr, OnOk};
ghost use Rattle.jd_start.specs.Starts.{start_data};

use hp_io::NoMemory;
use jd_start::Start;
use std::alloc::Global;
use std::marker::Model;

/// Starts in the order in which they were found.
#[derive(Drop)]
pub struct Starts {
    starts: Vec<Start>,
}

impl Model for Starts {
    ghost use Rattle.std.specs.Prelude.{List, map};
    ghost use Rattle.hp_model.specs.State.{Data};
    ghost use Rattle.jd_start.specs.Starts.{start_data};

    ghost Value = { List Data };

    ghost view = { λ s. map start_data s.starts.items };
}

impl Starts {
    /// No starts.
    pub(crate) fn new(alloc: Global) -> Starts
        ensures { result ≡ [] }
    {
        Starts {
            starts: Vec::new(alloc),
        }
    }

    /// How many starts there are.
    pub fn len(&self) -> usize
        ensures { result ≡ length self.now }
    {
        self.starts.len()
    }

    /// The starts as a slice.
    pub fn as_slice(&self) -> &[Start]
        ensures { map start_data result.now ≡ self.now }
    {
        self.starts.as_slice()
    }

    /// Puts a start at the end. After NoMemory the list is as before.
    pub(crate) fn push(&mut self, start: Start) -> Result<(), NoMemory>
        ensures pushed { OnOk result (self.new ≡ self.old ++ start_data start ∷ []) }
        ensures unchanged { OnErr result (self.new ≡ self.old) }
    {
        match self.starts.push(start) {
            Ok(()) => Ok(()),
            Err(_) => Err(NoMemory),
        }
    }
}
