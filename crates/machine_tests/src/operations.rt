//! Operations done to a machine, by their codes.
use Mode::{Ones, Twos, Unsigned};
use hp_core::{End, Machine, Stop};
use hp_nibbles::{Extent, Memory};
use hp_ops::Op;
use hp_words::{Base, Content, Mode, WordSize};

/// The operation of a code, done to a machine that stands at a line.
fn done(machine: &mut Machine, code: u8) -> Option<Stop> {
    let op = Op::of_code(code)?;
    if machine.control.line == 0 {
        return None;
    }
    Some(machine.step(op))
}

/// A machine of a size and a mode, with these in Y, Z and X.
fn machine(size: WordSize, mode: Mode, y: u64, z: u64, x: u64) -> Machine {
    let most = size.mask();
    let content = Content {
        x: x.min(most),
        y: y.min(most),
        z: z.min(most),
        t: 0,
        l: 0,
        i: 0,
        flags: [false; 6],
    };
    Machine::begin(
        size,
        mode,
        Base::Hex,
        Memory::new(Extent::Standard),
        content,
    )
}

const GO: Option<Stop> = Some(Stop::Go);

/// Size, mode, Y, Z and X, a code, what it answers, and then X, Y, carry and out of range.
#[test]
fn worked_operations(rt: HostRuntime) {
    let error_0 = Some(Stop::Ended(End::Error(0)));
    let error_2 = Some(Stop::Ended(End::Error(2)));
    let byte = WordSize { bits: 8 };
    let rows = [
        (Twos, 0x80, 0, 0xFF, 19, GO, 0x80, 0, false, true),
        (Twos, 0x80, 0, 0x00, 19, error_0, 0x00, 0x80, false, false),
        (Unsigned, 0xFF, 0, 0xFF, 56, GO, 0xFE, 0x01, false, false),
        (Unsigned, 0xFE, 0x01, 0xFF, 57, GO, 0xFF, 0, false, false),
        (Unsigned, 0x05, 0, 0x06, 17, GO, 0xFF, 0, true, true),
        (Ones, 0xFE, 0, 0x01, 16, GO, 0xFF, 0, false, false),
        (Twos, 0x7F, 0, 0x01, 16, GO, 0x80, 0, false, true),
        (
            Unsigned, 0x55, 0, 0x41, 62, error_2, 0x41, 0x55, false, false,
        ),
        (Unsigned, 0x55, 0, 0x40, 62, GO, 0x55, 0, false, false),
    ];
    for (mode, y, z, x, code, stop, new_x, new_y, carry, range) in rows {
        let mut machine = machine(byte, mode, y, z, x);
        assert_eq!(rt; done(&mut machine, code), stop);
        assert_eq!(rt; machine.content.x, new_x);
        assert_eq!(rt; machine.content.y, new_y);
        let flags = machine.content.flags;
        assert_eq!(rt; flags[4], carry);
        assert_eq!(rt; flags[5], range);
    }
}

/// Codes done one after another, each with the X that it leaves: 1234 stored at 16 bits reads 34 and
/// 12 at 8 bits and comes back whole; 56 in register 1 at 8 bits is the upper half of register 0 at
/// 16; FF at 8 bits reads 3F at 6, and FF again.
#[test]
fn registers_at_every_width(rt: HostRuntime) {
    let mut machine = machine(WordSize { bits: 16 }, Twos, 0, 0, 0);
    let steps = [
        (0x1, 0x1),
        (0x2, 0x12),
        (0x3, 0x123),
        (0x4, 0x1234),
        (145, 0x1234),
        (0x8, 0x8),
        (62, 0x34),
        (179, 0x34),
        (180, 0x12),
        (0x1, 0x1),
        (0x0, 0x10),
        (62, 0x12),
        (179, 0x1234),
        (0x8, 0x8),
        (62, 0x34),
        (0x5, 0x5),
        (0x6, 0x56),
        (146, 0x56),
        (0x1, 0x1),
        (0x0, 0x10),
        (62, 0x56),
        (179, 0x5634),
        (0x8, 0x8),
        (62, 0x34),
        (0xF, 0xF),
        (0xF, 0xFF),
        (145, 0xFF),
        (0x6, 0x6),
        (62, 0x3F),
        (179, 0x3F),
        (0x8, 0x8),
        (62, 0x3F),
        (179, 0xFF),
    ];
    for (code, x) in steps {
        assert_eq!(rt; done(&mut machine, code), GO);
        assert_eq!(rt; machine.content.x, x);
    }
}
