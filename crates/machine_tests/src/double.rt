//! Rows of products in two words, and of their division.
ghost use Rattle.std.specs.Prelude.{◌≡◌};
ghost use Rattle.hp_words.specs.Alike.{AreAlike};

use Call::{Div, Rmd};
use Mode::{Ones, Twos, Unsigned};
use hp_double::{dbl_div, dbl_mul, dbl_rmd};
use hp_words::{Answer, Error0, Mode, Word, WordSize};

#[derive(Clone, Copy, Debug)]
enum Call {
    Div,
    Rmd,
}

fn done(call: Call, upper: Word, lower: Word, divisor: Word) -> Result<Answer, Error0>
    requires upper { AreAlike upper divisor }
    requires lower { AreAlike lower divisor }
{
    match call {
        Div => dbl_div(upper, lower, divisor),
        Rmd => dbl_rmd(upper, lower, divisor),
    }
}

fn ok(pattern: u64, carry: Option<bool>, range: Option<bool>) -> Result<Answer, Error0> {
    Ok(Answer {
        pattern,
        carry,
        range,
    })
}

#[test]
fn worked_rows(rt: HostRuntime) {
    let set = Some(true);
    let clear = Some(false);
    let products = [
        (8, Unsigned, 0xFF, 0xFF, (0xFE, 0x01)),
        (8, Twos, 0x80, 0x80, (0x40, 0x00)),
        (4, Ones, 0xC, 0x5, (0xF, 0x0)),
        (4, Ones, 0xF, 0x5, (0x0, 0x0)),
    ];
    for (bits, mode, y, x, want) in products {
        let size = WordSize::new(bits).expect(&rt, "a size");
        assert!(rt; y <= size.mask() && x <= size.mask());
        let given = dbl_mul(Word::new(size, mode, y), Word::new(size, mode, x));
        assert_eq!(rt; given, want, "{y:X} times {x:X}");
    }
    let divisions = [
        (Div, 8, Unsigned, (0xFE, 1), 0xFF, ok(0xFF, clear, clear)),
        (Div, 8, Twos, (0xFF, 0xF9), 0x2, ok(0xFD, set, clear)),
        (Rmd, 8, Twos, (0xFF, 0xF9), 0x2, ok(0xFF, None, None)),
        (Div, 64, Twos, (1 << 63, 0), 1, Err(Error0)),
        (Rmd, 64, Twos, (1 << 63, 0), 1, Err(Error0)),
        (Rmd, 8, Ones, (0x00, 0x01), 0xFF, Err(Error0)),
    ];
    for (call, bits, mode, (upper, lower), x, want) in divisions {
        let size = WordSize::new(bits).expect(&rt, "a size");
        assert!(rt; upper <= size.mask() && lower <= size.mask() && x <= size.mask());
        let given = done(
            call,
            Word::new(size, mode, upper),
            Word::new(size, mode, lower),
            Word::new(size, mode, x),
        );
        assert_eq!(rt; given, want, "{call:?} of {upper:X}:{lower:X} by {x:X}");
    }
}
