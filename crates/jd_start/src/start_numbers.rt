// A start's content as the list of its numbers and back, since fields, bits and texts go by that
// list.
ghost use Rattle.std.specs.Prelude.{◌≡◌, ℕ, List, ◌++◌, length};
ghost use Rattle.hp_words.specs.Contents.{data_of};
ghost use Rattle.jd_model.specs.Problems.{content_numbers, start_with};
ghost use Rattle.jd_start.specs.Starts.{start_data};

use crate::bits::bit_number;
use crate::nibbles::Nibbles;
use crate::start::Start;
use hp_words::Content;

/// How many numbers a start's content has.
pub const CONTENT_NUMBERS: usize = 12;

/// The numbers of a start's content: the stack, LAST X, the index register and the flags.
pub fn content_numbers(start: &Start) -> [u64; CONTENT_NUMBERS]
    ensures value { result ≡ content_numbers (start_data start.now) }
    ensures flags { length start.now.content.flags ≡ 6 }
{
    let content = &start.content;
    let flags = &content.flags;
    [
        content.x,
        content.y,
        content.z,
        content.t,
        content.l,
        content.i,
        bit_number(flags[0]),
        bit_number(flags[1]),
        bit_number(flags[2]),
        bit_number(flags[3]),
        bit_number(flags[4]),
        bit_number(flags[5]),
    ]
}

/// The content of these numbers.
pub fn content_with(numbers: &[u64]) -> Content
    requires { length numbers.now ≡ CONTENT_NUMBERS }
    ensures { (nibbles : List ℕ) → data_of result nibbles ≡ start_with (numbers.now ++ nibbles) }
{
    Content {
        x: numbers[0],
        y: numbers[1],
        z: numbers[2],
        t: numbers[3],
        l: numbers[4],
        i: numbers[5],
        flags: [
            numbers[6] == 1,
            numbers[7] == 1,
            numbers[8] == 1,
            numbers[9] == 1,
            numbers[10] == 1,
            numbers[11] == 1,
        ],
    }
}

/// The start whose content has these numbers, with these nibbles.
pub fn start_with(content: &[u64], nibbles: Nibbles) -> Start
    requires { length content.now ≡ CONTENT_NUMBERS }
    ensures { start_data result ≡ start_with (content.now ++ nibbles) }
{
    Start {
        content: content_with(content),
        nibbles,
    }
}
