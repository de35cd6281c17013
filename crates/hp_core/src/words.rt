// Words of the machine's size and mode.
ghost use Rattle.std.specs.Prelude.{◌≡◌, ◌%◌, ◌^◌, ◌<◌};

use crate::machine::Machine;
use hp_words::{Word, WordSize};

impl Machine {
    /// X in the machine's size and mode.
    pub fn x_word(&self) -> Word
        ensures size { result.size ≡ self.now.control.size }
        ensures mode { result.mode ≡ self.now.control.mode }
        ensures pattern { result.pattern ≡ self.now.content.x }
    {
        Word::new(self.control.size, self.control.mode, self.content.x)
    }

    /// Y in the machine's size and mode.
    pub(crate) fn y_word(&self) -> Word
        ensures size { result.size ≡ self.now.control.size }
        ensures mode { result.mode ≡ self.now.control.mode }
        ensures pattern { result.pattern ≡ self.now.content.y }
    {
        Word::new(self.control.size, self.control.mode, self.content.y)
    }

    /// Z in the machine's size and mode.
    pub(crate) fn z_word(&self) -> Word
        ensures size { result.size ≡ self.now.control.size }
        ensures mode { result.mode ≡ self.now.control.mode }
        ensures pattern { result.pattern ≡ self.now.content.z }
    {
        Word::new(self.control.size, self.control.mode, self.content.z)
    }

    /// The index register as a word.
    pub(crate) fn index_word(&self) -> Word
        ensures size { result.size ≡ self.now.control.size }
        ensures mode { result.mode ≡ self.now.control.mode }
        ensures pattern { result.pattern ≡ self.now.content.i % 2 ^ self.now.control.size.bits }
    {
        let size = self.control.size;
        Word::new(size, self.control.mode, masked(size, self.content.i))
    }
}

/// A number's lowest bits, as many as a word has.
pub fn masked(size: WordSize, n: u64) -> u64
    ensures value { result ≡ n % 2 ^ size.bits }
    ensures bound { result < 2 ^ size.bits }
{
    n & size.mask()
}

/// One as a word.
pub fn one(machine: &Machine) -> Word
    ensures size { result.size ≡ machine.now.control.size }
    ensures mode { result.mode ≡ machine.now.control.mode }
    ensures pattern { result.pattern ≡ 1 }
{
    Word::new(machine.control.size, machine.control.mode, 1)
}
