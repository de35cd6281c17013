//! Takes a certificate's lines as they come, so that a check needs neither the text nor the tree:
//! between lines it has the spot, their number, and the first fault, which it meets for ever.
ghost use Rattle.std.specs.Prelude.{◌≡◌, ◌+◌, ◌<◌, ◌^◌};
ghost use Rattle.jd_text.specs.Words.{words_of};
ghost use Rattle.jd_trees.specs.CertLines.{is_whole};
ghost use Rattle.jd_cert.specs.Readers.{Answers, IsFaultOf, new_reader};

use crate::faults::CertFault;
use crate::lines::{is_whole, say};
use jd_lrat::ProofText;
use jd_trees::{CertEvent, Spot};
use std::alloc::Global;
use std::marker::Model;

/// Takes the lines of a certificate one after another, and keeps none of them.
#[derive(Drop)]
pub struct CertReader {
    alloc: Global,
    spot: Spot,
    lines: u32,
    fault: Option<CertFault>,
}

impl Model for CertReader {
    ghost use Rattle.std.specs.Prelude.{◌+◌, ◌≤◌};
    ghost use Rattle.jd_cert.specs.Readers.{Reader};

    ghost Value = { Reader };

    ghost view = { λ r. record { spot = r.spot; lines = r.lines; fault = r.fault } };

    ghost invariant = { λ r. r.spot.due ≤ r.lines + 1 };
}

/// The fault of a line, by its number and the cause.
fn fault_of(line: u32, cause: ProofText) -> CertFault
    ensures { IsFaultOf cause line result }
{
    match cause {
        ProofText::Syntax => CertFault::Syntax { line },
        ProofText::NoMemory => CertFault::NoMemory,
    }
}

impl CertReader {
    /// A reader to which no line came yet. Takes no memory.
    pub fn new(alloc: Global) -> CertReader
        ensures { result ≡ new_reader }
    {
        CertReader {
            alloc,
            spot: Spot {
                begun: false,
                due: 1,
                inside: false,
            },
            lines: 0,
            fault: None,
        }
    }

    /// How many lines were taken.
    pub fn lines(&self) -> u32
        ensures { result ≡ self.now.lines }
    {
        self.lines
    }

    /// Takes the next line, its line feed left out. After a fault every line meets the same, and none
    /// is counted.
    pub fn take(&mut self, line: &[u8]) -> Result<CertEvent, CertFault>
        requires { self.old.lines + 1 < 2 ^ 32 }
        ensures { Answers self.old (words_of line.now) result self.new }
    {
        if let Some(fault) = self.fault {
            return Err(fault);
        }
        let mut spot = self.spot;
        match say(self.alloc, &mut spot, line) {
            Ok(event) => {
                self.spot = spot;
                self.lines += 1;
                Ok(event)
            }
            Err(cause) => {
                let fault = fault_of(self.lines + 1, cause);
                self.fault = Some(fault);
                Err(fault)
            }
        }
    }

    /// Whether the lines that were taken are a whole certificate.
    pub fn whole(&self) -> bool
        ensures { result ≡ is_whole self.now.spot }
    {
        is_whole(&self.spot)
    }
}
