//! Lines of a program that come and go.
use hp_edit::{before, delete, goto_line, insert, next};
use hp_nibbles::{Extent, Memory};
use hp_ops::{Arithmetic, Op};
use std::test::Fail;

#[test]
fn lines_come_and_go(rt: HostRuntime) -> Result<(), Fail> {
    let add = Op::Arithmetic(Arithmetic::Add);
    let divide = Op::Arithmetic(Arithmetic::Divide);
    let mut memory = Memory::new(Extent::Standard);
    assert_eq!(rt; insert(&mut memory, 0, add)?, 1);
    assert_eq!(rt; insert(&mut memory, 0, divide)?, 1);
    assert_eq!(rt; next(&memory, 2), 0);
    assert_eq!(rt; before(&memory, 0), 2);
    assert_eq!(rt; goto_line(&memory, 3), None);
    assert_eq!(rt; delete(&mut memory, 1), 0);
    assert_eq!(rt; memory.line(1), add.code());
    Ok(())
}
