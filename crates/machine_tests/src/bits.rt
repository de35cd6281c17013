//! Rows of shifts, rotations, masks and single bits.
ghost use Rattle.std.specs.Prelude.{◌≡◌};
ghost use Rattle.hp_words.specs.Alike.{AreAlike};

use Mode::{Ones, Twos, Unsigned};
use Move::{Asr, Rl, Rlc, Rlcn, Rln, Rr, Rrc, Rrcn, Rrn, Sl, Sr};
use Of::{And, ClearBit, CountOnes, MaskLeft, MaskRight, Not, Or, SetBit, TestBit, Xor};
use hp_bits::{
    Error2, and, asr, clear_bit, count_ones, left_justify, mask_left, mask_right, not, or, rl, rlc,
    rlcn, rln, rr, rrc, rrcn, rrn, set_bit, sl, sr, test_bit, xor,
};
use hp_words::{Answer, Mode, Word, WordSize};

#[derive(Clone, Copy, Debug)]
enum Move {
    Sl,
    Sr,
    Asr,
    Rl,
    Rr,
    Rlc,
    Rrc,
    Rln,
    Rrn,
    Rlcn,
    Rrcn,
}

fn moved(call: Move, y: Word, x: Word, carry: bool) -> Result<Answer, Error2>
    requires alike { AreAlike y x }
{
    match call {
        Sl => Ok(sl(y)),
        Sr => Ok(sr(y)),
        Asr => Ok(asr(y)),
        Rl => Ok(rl(y)),
        Rr => Ok(rr(y)),
        Rlc => Ok(rlc(y, carry)),
        Rrc => Ok(rrc(y, carry)),
        Rln => rln(y, x),
        Rrn => rrn(y, x),
        Rlcn => rlcn(y, x, carry),
        Rrcn => rrcn(y, x, carry),
    }
}

#[derive(Clone, Copy, Debug)]
enum Of {
    MaskLeft,
    MaskRight,
    SetBit,
    ClearBit,
    TestBit,
    CountOnes,
    Not,
    And,
    Or,
    Xor,
}

fn number_of(call: Of, y: Word, x: Word) -> Result<u64, Error2>
    requires alike { AreAlike y x }
{
    match call {
        MaskLeft => mask_left(x),
        MaskRight => mask_right(x),
        SetBit => set_bit(y, x),
        ClearBit => clear_bit(y, x),
        TestBit => match test_bit(y, x) {
            Ok(set) => Ok(set as u64),
            Err(e) => Err(e),
        },
        CountOnes => Ok(count_ones(x)),
        Not => Ok(not(x)),
        And => Ok(and(y, x)),
        Or => Ok(or(y, x)),
        Xor => Ok(xor(y, x)),
    }
}

fn ok(pattern: u64, carry: Option<bool>) -> Result<Answer, Error2> {
    Ok(Answer {
        pattern,
        carry,
        range: None,
    })
}

#[test]
fn shifts_and_rotations(rt: HostRuntime) {
    let set = Some(true);
    let clear = Some(false);
    let top = 1 << 63;
    // the call, the word size, the mode, y, the count in x, the old carry
    let rows = [
        (Sl, 8, Twos, 0x81, 0, false, ok(0x02, set)),
        (Sr, 8, Twos, 0x81, 0, true, ok(0x40, set)),
        (Asr, 8, Twos, 0x82, 0, false, ok(0xC1, clear)),
        (Asr, 8, Unsigned, 0x81, 0, false, ok(0x40, set)),
        (Rl, 1, Ones, 1, 0, false, ok(1, set)),
        (Rl, 64, Unsigned, top, 0, false, ok(1, set)),
        (Rr, 8, Unsigned, 0x81, 0, false, ok(0xC0, set)),
        (Rlc, 8, Unsigned, 0x40, 0, true, ok(0x81, clear)),
        (Rrc, 8, Unsigned, 0x02, 0, true, ok(0x81, clear)),
        (Rln, 4, Unsigned, 0x9, 4, false, ok(0x9, set)),
        (Rln, 4, Unsigned, 0x9, 5, false, Err(Error2)),
        (Rln, 8, Twos, 0x12, 0xFF, true, ok(0x24, clear)),
        (Rln, 8, Ones, 0x12, 0xFF, true, ok(0x12, None)),
        (Rrn, 8, Unsigned, 0x12, 5, false, ok(0x90, set)),
        (Rrn, 64, Unsigned, 1, 64, true, ok(1, clear)),
        (Rlcn, 8, Unsigned, 0x81, 8, false, ok(0x40, set)),
        (Rlcn, 8, Unsigned, 0x81, 9, false, Err(Error2)),
        (Rlcn, 64, Unsigned, 1, 64, true, ok(top, set)),
        (Rrcn, 8, Unsigned, 0x81, 3, true, ok(0x70, clear)),
    ];
    for (call, bits, mode, y, x, carry, want) in rows {
        let size = WordSize::new(bits).expect(&rt, "a size");
        assert!(rt; y <= size.mask() && x <= size.mask());
        let given = moved(
            call,
            Word::new(size, mode, y),
            Word::new(size, mode, x),
            carry,
        );
        assert_eq!(rt; given, want, "{call:?} of {y:X} by {x:X}");
    }
}

#[test]
fn masks_and_bits(rt: HostRuntime) {
    let rows = [
        (MaskLeft, 4, Unsigned, 0, 4, Ok(0xF)),
        (MaskLeft, 8, Unsigned, 0, 3, Ok(0xE0)),
        (MaskLeft, 8, Unsigned, 0, 9, Err(Error2)),
        (MaskLeft, 64, Unsigned, 0, 64, Ok(u64::MAX)),
        (MaskRight, 8, Twos, 0, 0xFD, Ok(0x07)),
        (MaskRight, 64, Unsigned, 0, 64, Ok(u64::MAX)),
        (SetBit, 8, Unsigned, 0x01, 7, Ok(0x81)),
        (SetBit, 8, Unsigned, 0x81, 7, Ok(0x81)),
        (SetBit, 8, Unsigned, 0x01, 8, Err(Error2)),
        (ClearBit, 8, Unsigned, 0x81, 7, Ok(0x01)),
        (ClearBit, 8, Unsigned, 0x01, 7, Ok(0x01)),
        (TestBit, 8, Unsigned, 0x80, 7, Ok(1)),
        (TestBit, 8, Unsigned, 0x80, 6, Ok(0)),
        (TestBit, 8, Unsigned, 0x80, 8, Err(Error2)),
        (CountOnes, 8, Twos, 0, 0x5D, Ok(5)),
        (CountOnes, 64, Unsigned, 0, u64::MAX, Ok(64)),
        (Not, 8, Unsigned, 0, 0x5D, Ok(0xA2)),
        (And, 4, Unsigned, 0xC, 0xA, Ok(0x8)),
        (Or, 4, Unsigned, 0xC, 0xA, Ok(0xE)),
        (Xor, 4, Unsigned, 0xC, 0xA, Ok(0x6)),
    ];
    for (call, bits, mode, y, x, want) in rows {
        let size = WordSize::new(bits).expect(&rt, "a size");
        assert!(rt; y <= size.mask() && x <= size.mask());
        let given = number_of(call, Word::new(size, mode, y), Word::new(size, mode, x));
        assert_eq!(rt; given, want, "{call:?} of {y:X} and {x:X}");
    }
}

#[test]
fn left_justified(rt: HostRuntime) {
    for (bits, x, want) in [
        (8, 0x0F, (0xF0, 4)),
        (8, 0, (0, 0)),
        (4, 0x8, (0x8, 0)),
        (64, 1, (1 << 63, 63)),
    ] {
        let size = WordSize::new(bits).expect(&rt, "a size");
        assert!(rt; x <= size.mask());
        assert_eq!(rt; left_justify(Word::new(size, Unsigned, x)), want, "{x:X}");
    }
}
