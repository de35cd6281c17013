//! Reading a source to its end, but no further than a limit.
ghost use Rattle.std.specs.Prelude.{◌≡◌, ◌+◌, ◌≤◌, length, IfOk, IfSome, OnErr};
ghost use Rattle.hp_io.specs.Causes.{CallsAtMost, Rose};
ghost use Rattle.hp_io.specs.Limited.{IfWhole, IsRest, Takes, TakesAtMost, taken_of};

use crate::failures::Failed;
use crate::sources::Source;
use std::alloc::Global;
use std::marker::Model;
use thiserror::Error;

/// A list of bytes.
#[derive(Debug, Drop)]
pub struct Bytes {
    bytes: Vec<u8>,
}

impl Model for Bytes {
    ghost use Rattle.std.specs.Prelude.{ℕ, List};

    ghost Value = { List ℕ };

    ghost view = { λ b. b.bytes.items };
}

impl Bytes {
    /// The list of a vector's bytes. Takes no memory.
    pub fn new(bytes: Vec<u8>) -> Bytes
        ensures { result ≡ bytes.items }
    {
        Bytes { bytes }
    }

    /// The bytes as a slice.
    pub fn as_slice(&self) -> &[u8]
        ensures { result.now ≡ self.now }
    {
        self.bytes.as_slice()
    }

    /// The vector that holds the bytes. Takes no memory.
    pub fn into_vec(self) -> Vec<u8>
        ensures { result.items ≡ self }
    {
        self.bytes
    }
}

/// What a limited read answers.
#[derive(Debug, Drop)]
pub enum Taken {
    /// The source was read to its end, and these are its bytes.
    Whole(Bytes),
    /// The source has more bytes than the limit.
    TooLong,
}

/// Why a limited read has no answer.
#[derive(Clone, Copy, Debug, PartialEq, Eq, Error)]
pub enum ReadStop {
    #[error("a read failed")]
    Failed,
    #[error("there is no memory left")]
    NoMemory,
}

impl From<Failed> for ReadStop {
    ghost use Rattle.std.specs.Prelude.{◌≡◌};
    ghost use Rattle.hp_io.specs.declared.limited.ReadStop.{ReadStop};

    ghost from_gives = { λ _ stop. stop ≡ ReadStop.Failed };

    fn from(_failed: Failed) -> ReadStop {
        ReadStop::Failed
    }
}

// How many bytes are asked for at once.
const PIECE: usize = 8192;

// How many bytes to ask for, where so many are still within the limit: one more, so that a byte past
// the limit shows, but no more than a piece.
fn asked(within: u64) -> usize
    ensures some { 1 ≤ result }
    ensures piece { result ≤ PIECE }
    ensures past { result ≤ within + 1 }
{
    if within < PIECE as u64 {
        within as usize + 1
    } else {
        PIECE
    }
}

/// Reads a source to its end, where that comes within `limit` bytes.
///
/// After `TooLong` the source has lost one byte more than the limit, and after a `ReadStop` it has
/// lost as many as were read, at most the limit.
pub fn read_limited<S: Source>(alloc: Global, source: &mut S, limit: u64) -> Result<Taken, ReadStop>
    ensures whole { IfOk result (λ taken.
        IfWhole taken (IsRest (S.left source.old) (S.left source.new))) }
    ensures within { IfOk result (λ taken. IfWhole taken (λ bytes. length bytes ≤ limit)) }
    ensures too_long { result ≡ Ok Taken.TooLong
        → Takes (limit + 1) (S.left source.old) (S.left source.new) }

    // Where the source tells its bytes, they alone decide what is taken.
    ensures told { IfSome (S.left source.old) (λ left.
        IfOk result (λ taken. taken ≡ taken_of limit left)) }
    ensures stopped { OnErr result (TakesAtMost limit (S.left source.old) (S.left source.new)) }
    ensures failed { result ≡ Err ReadStop.Failed
        → Rose (S.faults source.old) (S.faults source.new) }
    ensures faults { S.faults source.old ≤ S.faults source.new }
    ensures calls { CallsAtMost (limit + 1) (S.calls source.old) (S.calls source.new) }
{
    let mut bytes = Vec::new(alloc);
    let mut piece = [0u8; PIECE];
    loop {
        let within = limit - bytes.len() as u64;
        let n = source.read(&mut piece[..asked(within)])?;
        if n == 0 {
            return Ok(Taken::Whole(Bytes::new(bytes)));
        }
        if n as u64 > within {
            return Ok(Taken::TooLong);
        }
        if bytes.extend_from_slice(&piece[..n]).is_err() {
            return Err(ReadStop::NoMemory);
        }
    }
}
