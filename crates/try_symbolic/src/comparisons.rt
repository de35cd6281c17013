//! What has to be the same on both machines: stop, control, words and flags after each line, and
//! the registers' nibbles at the end. A literal that isn't constant has no number, so it counts as
//! a difference.
ghost use Rattle.std.specs.Prelude.{◌≡◌, ◌*◌, length};
ghost use Rattle.hp_model.specs.State.{memory_bytes, register_nibbles};

use hp_core::{Calls, Control, Machine, Stop};
use hp_nibbles::Memory;
use hp_words::Content;
use jd_circuit::Lit;
use jd_content::SymContent;
use jd_start::register_nibbles;
use jd_symbolic::SymMachine;
use jd_vectors::Lits;

/// The first part in which two machines differ. A word of literals has no number where one of them is
/// no constant.
#[derive(Clone, Copy, Debug)]
pub enum Difference {
    Stop {
        stepped: Stop,
        on_literals: Stop,
    },
    Control {
        part: &'static str,
    },
    Word {
        part: &'static str,
        stepped: u64,
        on_literals: Option<u64>,
    },
    Nibble {
        place: u16,
        stepped: u8,
        on_literals: Option<u64>,
    },
}

/// The number that constants stand for.
pub fn number(lits: &Lits) -> Option<u64> {
    let mut number: u64 = 0;
    for i in 0..lits.len() {
        match lits.at(i) {
            Lit::Const(bit) if i < 64 => number |= u64::from(bit) << (i as u32),
            _ => return None,
        }
    }
    Some(number)
}

/// Whether the same returns are pending.
fn same_calls(first: &Calls, second: &Calls) -> bool {
    let mut first = first.copy();
    let mut second = second.copy();
    for _i in 0..5u8 {
        if first.pop() != second.pop() {
            return false;
        }
    }
    true
}

/// The first part in which control differs.
fn of_control(stepped: &Control, on_literals: &Control) -> Option<Difference> {
    let parts = [
        ("word size", stepped.size == on_literals.size),
        ("mode", stepped.mode == on_literals.mode),
        ("base", stepped.base == on_literals.base),
        ("line", stepped.line == on_literals.line),
        (
            "pending returns",
            same_calls(&stepped.calls, &on_literals.calls),
        ),
        ("stack lift", stepped.lift == on_literals.lift),
        ("number in entry", stepped.entry == on_literals.entry),
        ("window", stepped.window == on_literals.window),
    ];
    for (part, same) in parts {
        if !same {
            return Some(Difference::Control { part });
        }
    }
    None
}

/// The first word in which content differs.
fn of_words(stepped: &Content, on_literals: &SymContent) -> Option<Difference> {
    let parts = [
        ("X", stepped.x, number(&on_literals.x)),
        ("Y", stepped.y, number(&on_literals.y)),
        ("Z", stepped.z, number(&on_literals.z)),
        ("T", stepped.t, number(&on_literals.t)),
        ("LAST X", stepped.l, number(&on_literals.l)),
        ("index", stepped.i, number(&on_literals.i)),
    ];
    for (part, stepped, on_literals) in parts {
        if on_literals != Some(stepped) {
            return Some(Difference::Word {
                part,
                stepped,
                on_literals,
            });
        }
    }
    None
}

/// The number of a flag's literal.
fn flag_number(l: Lit) -> Option<u64> {
    match l {
        Lit::Const(set) => Some(u64::from(set)),
        Lit::Var(_) | Lit::Not(_) => None,
    }
}

/// The first flag that differs.
fn of_flags(stepped: &Content, on_literals: &SymContent) -> Option<Difference> {
    let names = ["flag 0", "flag 1", "flag 2", "flag 3", "carry", "range"];
    for i in 0..6usize {
        let set = u64::from(stepped.flags[i]);
        let l = flag_number(on_literals.flags[i]);
        if l != Some(set) {
            return Some(Difference::Word {
                part: names[i],
                stepped: set,
                on_literals: l,
            });
        }
    }
    None
}

/// The number of a nibble among literals.
fn nibble_number(lits: &Lits, place: usize) -> Option<u64> {
    let mut number: u64 = 0;
    for i in 0..4usize {
        let at = place.saturating_mul(4).saturating_add(i);
        if at >= lits.len() {
            return None;
        }
        number |= flag_number(lits.at(at))? << (i as u32);
    }
    Some(number)
}

/// The first nibble that differs among those from a place on, whose literals these are.
fn of_some_nibbles(memory: &Memory, from: u16, lits: &Lits) -> Option<Difference> {
    for i in 0..lits.len() / 4 {
        let place = from.saturating_add(i as u16);
        if place >= 2 * memory.extent().bytes() {
            return Some(Difference::Control { part: "memory" });
        }
        let stepped = memory.nibble(place);
        let on_literals = nibble_number(lits, i);
        if on_literals != Some(u64::from(stepped)) {
            return Some(Difference::Nibble {
                place,
                stepped,
                on_literals,
            });
        }
    }
    None
}

/// The first of the registers' nibbles that differs. They are read by 32.
pub fn of_nibbles(stepped: &Machine, on_literals: &SymMachine) -> Option<Difference>
    requires { length on_literals.now.content.nibbles ≡ 4 * register_nibbles
        (memory_bytes on_literals.now.extent) on_literals.now.blocks }
{
    let count = register_nibbles(on_literals.extent, on_literals.blocks);
    for part in 0..39u16 {
        let from = (32 * part).min(count);
        let to = (from + 32).min(count);
        let lits = on_literals
            .content
            .nibbles
            .read(4 * from as usize, 4 * to as usize);
        if let Some(found) = of_some_nibbles(&stepped.memory, from, &lits) {
            return Some(found);
        }
    }
    None
}

/// The first part but memory in which two machines differ after a line, which stopped like this.
pub fn of_line(
    stepped: &Machine,
    stepped_stop: Stop,
    on_literals: &SymMachine,
    literal_stop: Stop,
) -> Option<Difference> {
    if stepped_stop != literal_stop {
        return Some(Difference::Stop {
            stepped: stepped_stop,
            on_literals: literal_stop,
        });
    }
    if let Some(found) = of_control(&stepped.control, &on_literals.control) {
        return Some(found);
    }
    if let Some(found) = of_words(&stepped.content, &on_literals.content) {
        return Some(found);
    }
    of_flags(&stepped.content, &on_literals.content)
}
