//! Streams in memory move all that there is room for and have an end. These move one byte a call or
//! never end, so that commands meet such habits too; contracts learn nothing of their bytes.
ghost use Rattle.std.specs.Prelude.{◌≡◌, ◌<◌, length, None, IfOk};
ghost use Rattle.std.specs.Io.{ReadsAtMost, WritesAtMost};
ghost use Rattle.std.specs.Io.KnownBytes.{ReadConsumes, WriteAppends};
ghost use Rattle.hp_io.specs.Causes.{CallsAtMost, HasCause};

use hp_io::{Failed, Sink, Source};

/// Gives a byte at each read. The read with the number `failing`, counted from 1, fails.
#[derive(Drop)]
pub struct SlowSource {
    bytes: Vec<u8>,
    at: usize,
    failing: u64,
    calls: u64,
    faults: u64,
}

impl SlowSource {
    pub fn new(bytes: Vec<u8>, failing: u64) -> SlowSource {
        SlowSource {
            bytes,
            at: 0,
            failing,
            calls: 0,
            faults: 0,
        }
    }
}

impl Source for SlowSource {
    ghost left = { λ _. None };

    ghost faults = { λ s. s.faults };

    ghost calls = { λ s. s.calls };

    fn read(&mut self, into: &mut [u8]) -> Result<usize, Failed>
        ensures bound { ReadsAtMost result into.new }
        ensures bytes { ReadConsumes None None result into.new }
        ensures cause { HasCause self.old.faults self.new.faults result }
        ensures calls { CallsAtMost 1 self.old.calls self.new.calls }
    {
        self.calls = self.calls.saturating_add(1);
        if self.calls == self.failing {
            self.faults = self.faults.saturating_add(1);
            return Err(Failed);
        }
        let Some(byte) = self.bytes.get(self.at) else {
            return Ok(0);
        };
        if into.is_empty() {
            return Ok(0);
        }
        into[0] = *byte;
        self.at += 1;
        Ok(1)
    }
}

/// Fills a slice with ones and line feeds in turn, and answers which byte is next.
fn fill_in_turn(into: &mut [u8], first: u8) -> u8
    ensures len { length into.new ≡ length into.old }
{
    let mut next = first;
    for at in 0..into.len() {
        into[at] = next;
        next = if next == b'1' { b'\n' } else { b'1' };
    }
    next
}

/// Gives a 1 and a line feed for ever. No read fails.
#[derive(Drop)]
pub struct EndlessSource {
    next: u8,
    calls: u64,
}

impl EndlessSource {
    pub fn new() -> EndlessSource {
        EndlessSource {
            next: b'1',
            calls: 0,
        }
    }
}

impl Source for EndlessSource {
    ghost left = { λ _. None };

    ghost faults = { λ _. 0 };

    ghost calls = { λ s. s.calls };

    fn read(&mut self, into: &mut [u8]) -> Result<usize, Failed>
        ensures bound { ReadsAtMost result into.new }
        ensures bytes { ReadConsumes None None result into.new }
        ensures cause { HasCause 0 0 result }
        ensures calls { CallsAtMost 1 self.old.calls self.new.calls }
    {
        self.calls = self.calls.saturating_add(1);
        self.next = fill_in_turn(into, self.next);
        Ok(into.len())
    }
}

/// Takes a byte at each write. The write with the number `failing`, counted from 1, fails.
#[derive(Drop)]
pub struct SlowSink {
    bytes: Vec<u8>,
    failing: u64,
    calls: u64,
    faults: u64,
}

impl SlowSink {
    pub fn new(room: Vec<u8>, failing: u64) -> SlowSink {
        SlowSink {
            bytes: room,
            failing,
            calls: 0,
            faults: 0,
        }
    }

    /// The bytes that were written.
    pub fn written(&self) -> &[u8] {
        self.bytes.as_slice()
    }
}

impl Sink for SlowSink {
    ghost written = { λ _. None };

    ghost faults = { λ s. s.faults };

    fn write(&mut self, bytes: &[u8]) -> Result<usize, Failed>
        ensures bound { WritesAtMost result bytes.now }
        ensures progress { IfOk result (λ n. 0 < length bytes.now → 0 < n) }
        ensures bytes { WriteAppends None None result bytes.now }
        ensures cause { HasCause self.old.faults self.new.faults result }
    {
        self.calls = self.calls.saturating_add(1);
        let Some(byte) = bytes.first() else {
            return Ok(0);
        };
        if self.calls == self.failing || self.bytes.push(*byte).is_err() {
            self.faults = self.faults.saturating_add(1);
            return Err(Failed);
        }
        Ok(1)
    }
}
