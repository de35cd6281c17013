//! Registers of several widths in memory, beside a program.
use hp_nibbles::{Extent, Memory};
use hp_words::WordSize;

#[test]
fn registers_at_several_widths(rt: HostRuntime) {
    let w4 = WordSize::new(4).expect(&rt, "a size");
    let w6 = WordSize::new(6).expect(&rt, "a size");
    let w8 = WordSize::new(8).expect(&rt, "a size");
    let w16 = WordSize::new(16).expect(&rt, "a size");
    let mut memory = Memory::new(Extent::Standard);
    memory.write(w8, 0, 0xFF);
    assert_eq!(rt; memory.read(w6, 0), 0x3F);
    memory.write(w6, 0, 0x3F);
    assert_eq!(rt;
        (memory.read(w8, 0), memory.nibble(0), memory.nibble(1)),
        (0x3F, 0xF, 0x3)
    );
    memory.write(w16, 0, 0x1234);
    assert_eq!(rt; (memory.read(w8, 0), memory.read(w8, 1)), (0x34, 0x12));
    memory.write(w4, 405, 0xF);
    assert_eq!(rt; memory.count(w4), 406);
    assert!(rt; memory.insert_line(0, 0x10));
    assert_eq!(rt;
        (memory.nibble(404), memory.nibble(405), memory.count(w4)),
        (0, 1, 392)
    );
    for j in 392..404 {
        assert_eq!(rt; memory.nibble(j), 0, "nibble {j}");
    }
    memory.delete_line(1);
    assert_eq!(rt; memory.count(w4), 406);
    for j in 392..406 {
        assert_eq!(rt; memory.nibble(j), 0, "nibble {j}");
    }
}

#[test]
fn a_program_of_two_lines(rt: HostRuntime) {
    let w4 = WordSize::new(4).expect(&rt, "a size");
    let w12 = WordSize::new(12).expect(&rt, "a size");
    let nibbles = [1, 2, 3, 4, 5, 6, 7, 8, 9, 10, 11, 12, 13, 14];
    let mut memory = Memory::with(Extent::Standard, &[0x5C, 0x6C], 28, &nibbles);
    assert_eq!(rt;
        (memory.lines(), memory.blocks(), memory.count(w4)),
        (2, 28, 14)
    );
    assert_eq!(rt;
        (memory.line(1), memory.line(2), memory.read(w12, 1)),
        (0x5C, 0x6C, 0x654)
    );
    memory.clear_registers();
    assert_eq!(rt; (memory.line(2), memory.read(w12, 1)), (0x6C, 0));
    memory.clear_program();
    assert_eq!(rt;
        (memory.lines(), memory.blocks(), memory.count(w4)),
        (0, 0, 406)
    );
}

#[test]
fn a_large_memory(rt: HostRuntime) {
    let w4 = WordSize::new(4).expect(&rt, "a size");
    let w16 = WordSize::new(16).expect(&rt, "a size");
    let mut memory = Memory::new(Extent::Large);
    assert_eq!(rt; (memory.count(w4), memory.count(w16)), (1218, 304));
    memory.write(w4, 1217, 0xF);
    assert!(rt; memory.insert_line(0, 0x10));
    assert_eq!(rt;
        (memory.nibble(1216), memory.nibble(1217), memory.count(w4)),
        (0, 1, 1204)
    );
    assert_eq!(rt;
        (memory.lines(), memory.blocks(), memory.line(1)),
        (1, 1, 0x10)
    );
    memory.delete_line(1);
    assert_eq!(rt; (memory.count(w4), memory.read(w4, 1217)), (1218, 0));
}
