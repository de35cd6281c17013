//! The lines of a proof, kept. Like the lists of a line, it is made from a `Vec` and gives it back.
ghost use Rattle.std.specs.Prelude.{◌≡◌};
ghost use Rattle.jd_logic.specs.Ranges.{AreLines};

use crate::Line;
use std::marker::Model;

/// The lines of a proof. Each number is in its range, an id from 1 to 2^63 - 1, so that what is written
/// of them reads back.
#[derive(Debug, Drop)]
pub struct Log {
    lines: Vec<Line>,
}

impl Model for Log {
    ghost use Rattle.std.specs.Prelude.{List};
    ghost use Rattle.jd_logic.specs.declared.Line.{Line};
    ghost use Rattle.jd_logic.specs.Ranges.{AreLines};

    ghost Value = { List Line };

    ghost view = { λ l. l.lines.items };

    ghost invariant = { λ l. AreLines l.lines.items };
}

impl Log {
    /// The lines of a vector. Takes no memory.
    pub fn new(lines: Vec<Line>) -> Log
        requires { AreLines lines.items }
        ensures { result ≡ lines.items }
    {
        Log { lines }
    }

    /// The lines in their order.
    pub fn lines(&self) -> &[Line]
        ensures same { result.now ≡ self.now }
        ensures range { AreLines result.now }
    {
        self.lines.as_slice()
    }

    /// The vector that holds the lines. Takes no memory.
    pub fn into_lines(self) -> Vec<Line>
        ensures same { result.items ≡ self }
        ensures range { AreLines result.items }
    {
        self.lines
    }
}
