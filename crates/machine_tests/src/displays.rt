//! The displays of a new machine.
use hp_core::Machine;
use hp_display::{display, mem_line, status};
use hp_keys::{Shift, View};
use hp_nibbles::Extent;
use hp_words::Base;

#[test]
fn a_new_machine(rt: HostRuntime) {
    let machine = Machine::new(Extent::Standard);
    assert_eq!(rt;
        display(&machine, Shift::F, false, View::Normal).as_str(),
        "0 h f"
    );
    assert_eq!(rt;
        display(&machine, Shift::Plain, false, View::Show(Base::Dec)).as_str(),
        "0 d"
    );
    assert_eq!(rt;
        display(&machine, Shift::G, true, View::Normal).as_str(),
        "000 g PRGM"
    );
    assert_eq!(rt;
        display(&machine, Shift::Plain, true, View::Error(4)).as_str(),
        "Error 4"
    );
    assert_eq!(rt; status(&machine).as_str(), "2-16-0000");
    assert_eq!(rt; mem_line(&machine).as_str(), "P-0 r-101");
}
