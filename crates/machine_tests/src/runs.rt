//! Keys pressed on a calculator, and a run.
use hp_core::{End, Machine};
use hp_keys::{Key, View};
use hp_nibbles::Extent;
use hp_run::{Calculator, RunEnd, press_all, run};

#[test]
fn keys_add_numbers(rt: HostRuntime) {
    let mut calculator = Calculator::new(Extent::Standard);
    press_all(
        &mut calculator,
        &[Key::DigitF, Key::DigitF, Key::Enter, Key::Digit1, Key::Plus],
    );
    assert_eq!(rt; calculator.machine.content.x, 0x100);
    assert_eq!(rt; calculator.view, View::Normal);
}

#[test]
fn an_empty_program_returns(rt: HostRuntime) {
    let mut machine = Machine::new(Extent::Standard);
    machine.control.line = 1;
    assert_eq!(rt; run(&mut machine, 0), RunEnd::Late);
    assert_eq!(rt; run(&mut machine, 10), RunEnd::Ended(End::Return));
}
