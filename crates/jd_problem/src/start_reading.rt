// A start as far as it is read: its numbers in order, until they are made a start.
ghost use Rattle.std.specs.Prelude.{◌≡◌, suc, ◌+◌, ◌<◌, ◌≤◌, ◌++◌, length};
ghost use Rattle.jd_model.specs.Assumptions.{meets};
ghost use Rattle.jd_model.specs.Problems.{start_with};
ghost use Rattle.jd_model.specs.StartTexts.{nothing_started};
ghost use Rattle.jd_problem.specs.StartReadings.{content_given};

use arrayvec::ArrayVec;
use jd_start::{Assumed, CONTENT_NUMBERS, Nibbles, Start, content_with, meets, start_with};
use std::marker::Model;

/// How many lines of a start were given, and their numbers. Contracts see the definitions' reading.
#[derive(Drop)]
pub struct StartReading {
    given: u8,
    content: ArrayVec<u64, CONTENT_NUMBERS>,
    nibbles: Nibbles,
}

impl Model for StartReading {
    ghost use Rattle.jd_model.specs.StartTexts.{StartReading as ReadingValue};
    ghost use Rattle.jd_problem.specs.StartReadings.{reading_in, IsReading};

    ghost Value = { ReadingValue };

    ghost view = { λ r. reading_in r.given r.content.items r.nibbles };

    ghost invariant = { λ r. IsReading r.given r.content.items r.nibbles };
}

impl StartReading {
    ghost use Rattle.jd_start.specs.Starts.{start_data};

    /// The reading before any line.
    pub fn new() -> StartReading
        ensures { result ≡ nothing_started }
    {
        StartReading {
            given: 0,
            content: ArrayVec::new(),
            nibbles: Nibbles::new(),
        }
    }

    /// How many lines were given.
    pub fn given(&self) -> u8
        ensures value { result ≡ self.now.given }
        ensures bound { result ≤ 10 }
    {
        self.given
    }

    /// Takes a line with numbers other than nibbles, or with none.
    pub fn take_numbers(&mut self, numbers: &[u64])
        requires line { self.old.given < 10 }
        requires count { content_given self.old.given + length numbers.now
            ≡ content_given (self.old.given + 1) }
        ensures { self.new ≡ record {
          given = suc self.old.given;
          numbers = self.old.numbers
              ++ numbers.now;
        } }
    {
        self.given += 1;
        self.content.try_extend_from_slice(numbers).unwrap();
    }

    /// Takes the line with the nibbles.
    pub fn take_nibbles(&mut self, nibbles: Nibbles)
        requires { self.old.given ≡ 8 }
        ensures { self.new ≡ record { given = 9; numbers = self.old.numbers ++ nibbles } }
    {
        self.given = 9;
        self.nibbles = nibbles;
    }

    /// Whether the start of all lines but the last meets assumptions.
    pub fn meets(&self, assumed: &Assumed) -> bool
        requires { self.now.given ≡ 9 }
        ensures { result ≡ meets assumed.now (start_with self.now.numbers) }
    {
        meets(assumed, &content_with(self.content.as_slice()))
    }

    /// The start of all lines.
    pub fn into_start(self) -> Start
        requires { self.given ≡ 10 }
        ensures { start_data result ≡ start_with self.numbers }
    {
        let StartReading {
            given: _,
            content,
            nibbles,
        } = self;
        start_with(content.as_slice(), nibbles)
    }
}
