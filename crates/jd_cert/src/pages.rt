//! Text that goes to a sink page by page, so that short pieces cost no write each. After a write
//! that fails nothing more is written, and the end tells it.
ghost use Rattle.std.specs.Prelude.{◌≡◌, ◌≤◌, ◌∷◌, [], ◌++◌, length, flat_map, false};
ghost use Rattle.jd_cert.specs.Pages.{Ends, Gives, blank, stand};

use arrayvec::ArrayString;
use hp_io::{Failed, Sink, write_whole};
use itoa::{Buffer, Integer};
use std::marker::Model;

/// How many bytes a page has.
const ROOM: usize = 4096;

/// Text that is held back until a page is full. After the first write that fails, nothing is written.
#[derive(Drop)]
pub struct Page {
    text: ArrayString<ROOM>,
    failed: bool,
}

impl Model for Page {
    ghost use Rattle.jd_cert.specs.Pages.{Sheet};

    ghost Value = { Sheet };

    ghost view = { λ p. record { held = p.text.bytes; failed = p.failed } };
}

impl Page {
    pub fn new() -> Page
        ensures { result ≡ blank }
    {
        Page {
            text: ArrayString::new(),
            failed: false,
        }
    }

    /// Writes the page, and gives a short piece to a new one.
    fn put_over<K: Sink>(&mut self, sink: &mut K, piece: &str)
        requires short { length piece.now ≤ 64 }
        requires goes_on { self.old.failed ≡ false }
        ensures { Gives (stand (K.written sink.old) (K.faults sink.old) self.old) (stand (K.written sink.new) (K.faults sink.new) self.new) piece.now }
    {
        match write_whole(sink, self.text.as_str().as_bytes()) {
            Err(_) => self.failed = true,
            Ok(()) => {
                self.text.clear();
                self.text.push_str(piece);
            }
        }
    }

    /// Gives a short piece to the page.
    pub fn put<K: Sink>(&mut self, sink: &mut K, piece: &str)
        requires { length piece.now ≤ 64 }
        ensures { Gives (stand (K.written sink.old) (K.faults sink.old) self.old) (stand (K.written sink.new) (K.faults sink.new) self.new) piece.now }
    {
        if self.failed {
            return;
        }
        if self.text.len() + piece.len() > ROOM {
            self.put_over(sink, piece);
            return;
        }
        self.text.push_str(piece);
    }

    /// Gives a number and a blank.
    pub fn put_number<K: Sink, I: Integer>(&mut self, sink: &mut K, n: I)
        ensures { Gives (stand (K.written sink.old) (K.faults sink.old) self.old) (stand (K.written sink.new) (K.faults sink.new) self.new) (I.text n ++ 32 ∷ []) }
    {
        let mut buffer = Buffer::new();
        self.put(sink, buffer.format(n));
        self.put(sink, " ");
    }

    /// Gives numbers, with a blank after each.
    pub fn put_numbers<K: Sink, I: Integer + Drop>(&mut self, sink: &mut K, numbers: &[I])
        ensures { Gives (stand (K.written sink.old) (K.faults sink.old) self.old) (stand (K.written sink.new) (K.faults sink.new) self.new) (flat_map (λ n. I.text n ++ 32 ∷ []) numbers.now) }
    {
        for n in numbers {
            self.put_number(sink, *n);
        }
    }

    /// Writes what is held back. `Failed` where this or an earlier write failed.
    pub fn finish<K: Sink>(&self, sink: &mut K) -> Result<(), Failed>
        ensures { Ends (stand (K.written sink.old) (K.faults sink.old) self.now) (K.written sink.new) (K.faults sink.new) result }
    {
        if self.failed {
            return Err(Failed);
        }
        write_whole(sink, self.text.as_str().as_bytes())
    }
}
