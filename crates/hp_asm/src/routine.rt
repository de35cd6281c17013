//! Routines as values: codes in fixed room, whose range every reader keeps.
ghost use Rattle.std.specs.Prelude.{◌≡◌, ◌<◌, ◌≤◌, [], ◌∷◌, ◌++◌, ◌==◌, length};
ghost use Rattle.jd_model.specs.Assembly.{IsRoutine};

use arrayvec::ArrayVec;
use std::marker::Model;

/// A routine: at most 203 operations, each by its code. Contracts see the list of codes.
#[derive(Drop)]
pub struct Routine {
    codes: ArrayVec<u8, 203>,
}

impl Model for Routine {
    ghost use Rattle.std.specs.Prelude.{List, ℕ};
    ghost use Rattle.jd_model.specs.Assembly.{IsRoutine};

    ghost Value = { List ℕ };

    ghost view = { λ r. r.codes.items };

    ghost invariant = { λ r. IsRoutine r.codes.items };
}

impl Routine {
    /// The routine without operations.
    pub fn new() -> Routine
        ensures { result ≡ [] }
    {
        Routine {
            codes: ArrayVec::new(),
        }
    }

    /// Whether it has 203 operations, so that no more can be added.
    pub fn is_full(&self) -> bool
        ensures value { result ≡ (length self.now == 203) }
        ensures bound { length self.now ≤ 203 }
    {
        self.codes.is_full()
    }

    /// Adds an operation at the end, by its code.
    pub fn push(&mut self, code: u8)
        requires code { code < 225 }
        requires room { length self.old < 203 }
        ensures { self.new ≡ self.old ++ code ∷ [] }
    {
        self.codes.push(code);
    }

    /// The codes of its operations in order.
    pub fn codes(&self) -> &[u8]
        ensures same { result.now ≡ self.now }
        ensures routine { IsRoutine result.now }
    {
        self.codes.as_slice()
    }

    /// Another routine with the same operations.
    pub fn copy(&self) -> Routine
        ensures { result ≡ self.now }
    {
        let mut codes = ArrayVec::new();
        codes.try_extend_from_slice(self.codes.as_slice()).unwrap();
        Routine { codes }
    }
}
