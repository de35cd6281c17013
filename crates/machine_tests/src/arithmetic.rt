//! Rows of arithmetic, one table for all calls.
ghost use Rattle.std.specs.Prelude.{◌≡◌};
ghost use Rattle.hp_words.specs.Alike.{AreAlike};

use Call::{Abs, Add, Chs, Div, Mul, Rmd, Root, Sub};
use Mode::{Ones, Twos, Unsigned};
use hp_arith::{abs, add, chs, div, mul, rmd, root, sub};
use hp_words::{Answer, Error0, Mode, Word, WordSize};

#[derive(Clone, Copy, Debug)]
enum Call {
    Add,
    Sub,
    Mul,
    Div,
    Rmd,
    Chs,
    Abs,
    Root,
}

fn done(call: Call, y: Word, x: Word) -> Result<Answer, Error0>
    requires alike { AreAlike y x }
{
    match call {
        Add => Ok(add(y, x)),
        Sub => Ok(sub(y, x)),
        Mul => Ok(mul(y, x)),
        Div => div(y, x),
        Rmd => rmd(y, x),
        Chs => Ok(chs(x)),
        Abs => Ok(abs(x)),
        Root => root(x),
    }
}

fn ok(pattern: u64, carry: Option<bool>, range: Option<bool>) -> Result<Answer, Error0> {
    Ok(Answer {
        pattern,
        carry,
        range,
    })
}

#[test]
fn worked_rows(rt: HostRuntime) {
    let set = Some(true);
    let clear = Some(false);
    let rows = [
        (Add, 4, Ones, 0xC, 0xC, ok(0x9, set, clear)),
        (Add, 4, Ones, 0x3, 0xC, ok(0xF, clear, clear)),
        (Sub, 8, Unsigned, 0x5, 0x6, ok(0xFF, set, set)),
        (Mul, 8, Twos, 0x80, 0xFF, ok(0x80, None, set)),
        (Div, 8, Twos, 0xF9, 0x2, ok(0xFD, set, clear)),
        (Div, 8, Twos, 0x80, 0xFF, ok(0x80, clear, set)),
        (Div, 8, Twos, 0x80, 0x0, Err(Error0)),
        (Rmd, 8, Twos, 0xF9, 0x2, ok(0xFF, None, None)),
        (Chs, 1, Ones, 0x0, 0x0, ok(0x1, None, clear)),
        (Abs, 8, Twos, 0x0, 0x80, ok(0x80, None, set)),
        (Root, 8, Unsigned, 0x0, 0xA, ok(0x3, set, clear)),
        (Root, 8, Twos, 0x0, 0x80, Err(Error0)),
    ];
    for (call, bits, mode, y, x, want) in rows {
        let size = WordSize::new(bits).expect(&rt, "a size");
        assert!(rt; y <= size.mask() && x <= size.mask());
        let given = done(call, Word::new(size, mode, y), Word::new(size, mode, x));
        assert_eq!(rt; given, want, "{call:?} of {y:X} and {x:X}");
    }
}
