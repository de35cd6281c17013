//! A sink in memory, which fails at the calls that it is told, and where its room is full.
ghost use Rattle.std.specs.Prelude.{◌≡◌, ◌+◌, ◌-◌, ◌<◌, ◌≤◌, ◌++◌, length, min, take, Some, IfOk, is_err};
ghost use Rattle.std.specs.Io.{WritesAtMost};
ghost use Rattle.std.specs.Io.KnownBytes.{WriteAppends};
ghost use Rattle.hp_io.specs.Causes.{HasCause};
ghost use Rattle.hp_io.specs.Memory.{after_write, new_sink, write_fails};

use crate::failures::{Failed, fail};
use crate::sinks::Sink;
use std::marker::Model;

/// Room in memory. The writes are numbered from 1, and those whose numbers are listed fail. So does
/// the write of a piece that isn't empty where no room is left.
#[derive(Drop)]
pub struct MemSink {
    room: Vec<u8>,
    at: usize,
    fails: Vec<u64>,
    calls: u64,
    faults: u64,
}

impl Model for MemSink {
    ghost use Rattle.std.specs.Prelude.{◌≤◌, take, vec_len};
    ghost use Rattle.hp_io.specs.Memory.{SinkState};

    ghost Value = { SinkState };

    ghost view = { λ s. record {
      written = take s.at s.room.items;
      room = vec_len s.room;
      fails = s.fails.items;
      calls = s.calls;
      faults = s.faults;
    } };

    ghost invariant = { λ s. s.at ≤ vec_len s.room };
}

impl MemSink {
    /// A sink with room for as many bytes as `room` has, whose writes with the listed numbers fail.
    /// Takes no memory.
    pub fn new(room: Vec<u8>, fails: Vec<u64>) -> MemSink
        ensures { result ≡ new_sink (length room.items) fails.items }
    {
        MemSink {
            room,
            at: 0,
            fails,
            calls: 0,
            faults: 0,
        }
    }

    /// The bytes that were written.
    pub fn written(&self) -> &[u8]
        ensures bytes { result.now ≡ self.now.written }
        ensures room { length result.now ≤ self.now.room }
    {
        &self.room[..self.at]
    }
}

// Puts as many of the bytes as there is room for at a place.
fn put_front(room: &mut [u8], at: usize, bytes: &[u8]) -> usize
    requires { at ≤ length room.old }
    ensures count { result ≡ min (length bytes.now) (length room.old - at) }
    ensures len { length room.new ≡ length room.old }
    ensures bytes { take (at + result) room.new ≡ take at room.old ++ take result bytes.now }
{
    let n = bytes.len().min(room.len() - at);
    room[at..at + n].copy_from_slice(&bytes[..n]);
    n
}

impl Sink for MemSink {
    ghost written = { λ s. Some s.written };

    ghost faults = { λ s. s.faults };

    fn write(&mut self, bytes: &[u8]) -> Result<usize, Failed>
        ensures bound { WritesAtMost result bytes.now }
        ensures progress { IfOk result (λ n. 0 < length bytes.now → 0 < n) }
        ensures bytes { WriteAppends (Some self.old.written) (Some self.new.written)
            result bytes.now }
        ensures cause { HasCause self.old.faults self.new.faults result }

        // It fails exactly where its number is listed or the piece finds no room, and else takes all
        // that there is room for.
        ensures fails { is_err result ≡ write_fails self.old bytes.now }
        ensures count { IfOk result (λ n.
            n ≡ min (length bytes.now) (self.old.room - length self.old.written)) }
        ensures state { self.new ≡ after_write self.old bytes.now }
    {
        self.calls = self.calls.saturating_add(1);
        if self.fails.contains(&self.calls) || !bytes.is_empty() && self.at == self.room.len() {
            return fail(&mut self.faults);
        }
        let n = put_front(&mut self.room, self.at, bytes);
        self.at += n;
        Ok(n)
    }
}
