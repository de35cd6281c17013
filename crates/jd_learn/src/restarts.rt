//! When a search gives up its decisions and begins again with what it learned: after conflicts as
//! many as Luby's sequence has it, in fifties.

/// Conflicts counted up to the next restart.
#[derive(Drop)]
pub struct Restarts {
    conflicts: u64,
    /// The place in the sequence, and the term there.
    place: u64,
    term: u64,
}

/// The conflicts that the sequence's first term stands for.
const UNIT: u64 = 50;

impl Restarts {
    pub fn new() -> Restarts {
        Restarts {
            conflicts: 0,
            place: 1,
            term: 1,
        }
    }

    /// Counts a conflict.
    pub fn count(&mut self) {
        self.conflicts = self.conflicts.saturating_add(1);
    }

    /// Takes a restart where one is due: the count then begins again for the next term.
    pub fn take_restart(&mut self) -> bool {
        if self.conflicts < self.term.saturating_mul(UNIT) {
            return false;
        }
        self.conflicts = 0;
        // The term is the lowest bit of the place (Knuth's reluctant doubling). The bounds, which no
        // search comes to, keep the product in range.
        if self.place % (2 * self.term.min(1 << 40).max(1)) == self.term {
            self.place = self.place.saturating_add(1);
            self.term = 1;
        } else {
            self.term = self.term.saturating_mul(2);
        }
        true
    }
}
