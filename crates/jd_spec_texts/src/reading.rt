//! A spec as far as it is read: the problem whose lines it shares, and the parts given so far. The
//! places of the problem's lines stand for those of the spec's.
ghost use Rattle.std.specs.List.{IsDistinct};
ghost use Rattle.std.proofs.Props.{props};
ghost use Rattle.jd_spec_texts.specs.Specs.{same_part};

use jd_gives::Gives;
use jd_model::Version;
use jd_problem::ProblemReader;

/// What is due after `spec`: the place of `word` in a problem.
pub const WORD_DUE: u8 = 1;
/// What is due after `budget`, which is `observe` in a problem.
pub const OBSERVE_DUE: u8 = 8;
/// What is due after the headers: `fix`, `assume`, `give` and `routine` lines, the place of `first`.
pub const ROUTINE_DUE: u8 = 9;
/// What is due in the routine: the place of `second`.
pub const END_DUE: u8 = 10;
/// What is due after `end`: nothing.
pub const NOTHING_DUE: u8 = 12;

/// The problem of which nothing is observed, read by the rules of version 2, and the parts that are
/// given, each once.
#[derive(Drop)]
pub struct SpecReading {
    pub problem: ProblemReader,
    pub gives: Gives,
    pub ghost once: { IsDistinct same_part gives } by { Prim.hlevel props },
}

impl SpecReading {
    ghost use Rattle.std.specs.Prelude.{◌≡◌};
    ghost use Rattle.jd_spec_texts.specs.Readings.{spec_reading_of};
    ghost use Rattle.jd_spec_texts.specs.SpecTexts.{no_spec_read};

    /// The reading before any line.
    pub fn new() -> SpecReading
        ensures { spec_reading_of result ≡ no_spec_read }
    {
        let mut problem = ProblemReader::new();
        problem.version = Version::Two;
        SpecReading {
            problem,
            gives: Gives::new(),
        }
    }
}
