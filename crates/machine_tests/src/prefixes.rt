//! Keys as a teacher would press them.
use hp_keys::{Command, Key, Prefix, Pressed, Shift, press_key};
use hp_ops::{Jump, Op};

#[test]
fn keys_make_commands(rt: HostRuntime) {
    assert_eq!(rt; Key::of_word(b"x<>y"), Some(Key::Exchange));
    assert_eq!(rt; Key::of_word(b"EEX"), None);
    let mut prefix = Prefix::new();
    assert_eq!(rt; press_key(&mut prefix, Key::ShiftG), Pressed::More);
    assert_eq!(rt; prefix.shift(), Shift::G);
    assert_eq!(rt;
        press_key(&mut prefix, Key::Gosub),
        Pressed::Do(Command::Do(Op::Jump(Jump::Return)))
    );
    assert!(rt; !prefix.pending());
}

#[test]
fn a_line_takes_three_digits(rt: HostRuntime) {
    let mut prefix = Prefix::new();
    for key in [Key::Goto, Key::Point, Key::Digit0, Key::Digit4] {
        assert_eq!(rt; press_key(&mut prefix, key), Pressed::More);
    }
    assert_eq!(rt;
        press_key(&mut prefix, Key::Digit2),
        Pressed::Do(Command::GotoLine(42))
    );
}
