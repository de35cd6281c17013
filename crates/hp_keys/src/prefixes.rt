// Prefixes: which keys a pending one takes, and the command that they make. A key that doesn't fit drops
// it.
ghost use Rattle.std.specs.Prelude.{◌≡◌, ◌≢◌, ◌+◌, ◌<◌, ◌↔◌, IsTrue};
ghost use Rattle.hp_model.specs.Keys as keys;
ghost use Rattle.hp_model.specs.Prefixes.{press_key as press_key_of, taken, ends, needs as needs_of, operates as operates_of, meant as meant_of, after_register_key, after_number_key, after_call, after_goto as after_goto_of, with_line_digit as with_line_digit_of, after_line_digits as after_line_digits_of};
ghost use Rattle.hp_model.specs.Operations as ops;
ghost use Rattle.hp_ops.specs.Meaning.{operation, where_is};
ghost use Rattle.hp_keys.specs.Commands.{command_of, pressed_of};
ghost use Rattle.hp_keys.specs.Operands.{operand_means};
ghost use Rattle.hp_keys.specs.Prefixes.{prefix_of, shift_of, meaning_of, reply_of, line_digits, at_place, on_flag};

use crate::commands::{Command, Pressed, Shift};
use crate::meanings::{Meaning, plainly, shifted_f, shifted_g};
use crate::operands::{Operand, operand_of};
use hp_model::Key;
use hp_ops::{Flag, Flags, Jump, Op, Place, Register, Registers, Target, Window, Windows};
use std::marker::Model;

/// Whether a register is stored or recalled.
#[derive(Clone, Copy, Debug, PartialEq, Eq)]
pub enum Access {
    Store,
    Recall,
}

/// What is done with a flag.
#[derive(Clone, Copy, Debug, PartialEq, Eq)]
pub enum FlagUse {
    Set,
    Clear,
    Test,
}

/// The digits that were given of a line's number.
#[derive(Clone, Copy, Debug, PartialEq, Eq)]
pub enum LineDigits {
    None,
    One(u8),
    Two(u8, u8),
}

/// What was pressed of a command that needs more keys. `HighRegister` is a register after its `.`, and
/// `Line` is `GTO .` with the digits that followed.
#[derive(Clone, Copy, Debug, PartialEq, Eq)]
pub enum Pending {
    Nothing,
    F,
    G,
    Register(Access),
    HighRegister(Access),
    Goto,
    Line(LineDigits),
    Gosub,
    Label,
    Flag(FlagUse),
    Window,
}

/// The prefix that is pending: the keys that were pressed of a command that needs more.
#[derive(Drop)]
pub struct Prefix {
    pending: Pending,
}

impl Model for Prefix {
    ghost use Rattle.hp_model.specs.Keys.{Prefix as PrefixState};
    ghost use Rattle.hp_keys.specs.Prefixes.{prefix_of};

    ghost Value = { PrefixState };

    ghost view = { λ p. prefix_of p.pending };
}

impl Prefix {
    pub fn new() -> Prefix
        ensures { result ≡ keys.nothing_pending }
    {
        Prefix {
            pending: Pending::Nothing,
        }
    }

    /// The same prefix.
    pub fn copy(&self) -> Prefix
        ensures { result ≡ self.now }
    {
        Prefix {
            pending: self.pending,
        }
    }

    /// The shift that the display shows.
    pub fn shift(&self) -> Shift
        ensures { result ≡ shift_of self.now }
    {
        match self.pending {
            Pending::F => Shift::F,
            Pending::G => Shift::G,
            _ => Shift::Plain,
        }
    }

    /// Whether a shift or another prefix is pending.
    pub fn pending(&self) -> bool
        ensures { IsTrue result ↔ self.now ≢ keys.nothing_pending }
    {
        self.pending != Pending::Nothing
    }
}

/// What a key gives, and the prefix that is pending after it.
#[derive(Clone, Copy)]
struct Reply {
    pending: Pending,
    pressed: Pressed,
}

/// More keys are needed.
fn needs(pending: Pending) -> Reply
    ensures { reply_of result ≡ needs_of (prefix_of pending) }
{
    Reply {
        pending,
        pressed: Pressed::More,
    }
}

/// A command is complete.
fn complete(command: Command) -> Reply
    ensures { reply_of result ≡ ends (keys.complete (command_of command)) }
{
    Reply {
        pending: Pending::Nothing,
        pressed: Pressed::Do(command),
    }
}

/// The key is dropped, and the prefix with it.
fn dropped() -> Reply
    ensures { reply_of result ≡ ends keys.dropped }
{
    Reply {
        pending: Pending::Nothing,
        pressed: Pressed::Dropped,
    }
}

/// An operation is complete.
fn operates(op: Op) -> Reply
    ensures { reply_of result ≡ operates_of (operation op) }
{
    complete(Command::Do(op))
}

/// What a meaning gives.
fn meant(meaning: Meaning) -> Reply
    ensures { reply_of result ≡ meant_of (meaning_of meaning) }
{
    match meaning {
        Meaning::Does(op) => operates(op),
        Meaning::Asks(command) => complete(command),
        Meaning::Begins(pending) => needs(pending),
        Meaning::Nothing => dropped(),
    }
}

impl Access {
    /// The operation on a place.
    fn at(self, place: Place) -> Op
        ensures { operation result ≡ at_place self (where_is place) }
    {
        match self {
            Access::Store => Op::Registers(Registers::Store(place)),
            Access::Recall => Op::Registers(Registers::Recall(place)),
        }
    }

    /// The operation on a register.
    fn at_register(self, number: u8) -> Op
        requires { number < 32 }
        ensures { operation result ≡ at_place self (ops.register number) }
    {
        self.at(Place::Direct(Register { number }))
    }
}

impl FlagUse {
    /// The operation on a flag.
    fn on(self, flag: Flag) -> Op
        ensures { operation result ≡ on_flag self flag.number }
    {
        match self {
            FlagUse::Set => Op::Flags(Flags::Set(flag)),
            FlagUse::Clear => Op::Flags(Flags::Clear(flag)),
            FlagUse::Test => Op::Flags(Flags::Test(flag)),
        }
    }
}

/// A key after STO or RCL.
fn after_access(access: Access, operand: Operand) -> Reply
    ensures { reply_of result ≡ after_register_key (at_place access) (prefix_of (Pending.Register access)) (prefix_of (Pending.HighRegister access)) (operand_means operand) }
{
    match operand {
        Operand::Number(digit) => operates(access.at_register(digit.value)),
        Operand::Single => operates(access.at(Place::Index)),
        Operand::Run => operates(access.at(Place::Through)),
        Operand::Point => needs(Pending::HighRegister(access)),
        Operand::Shift => needs(Pending::Register(access)),
        Operand::Other => dropped(),
    }
}

/// A key after the point of STO or RCL.
fn after_point(access: Access, operand: Operand) -> Reply
    ensures { reply_of result ≡ after_number_key 16 (λ n. at_place access (ops.register (16 + n))) (operand_means operand) }
{
    match operand {
        Operand::Number(digit) => operates(access.at_register(16 + digit.value)),
        _ => dropped(),
    }
}

/// A key after GTO.
fn after_goto(operand: Operand) -> Reply
    ensures { reply_of result ≡ after_goto_of (operand_means operand) }
{
    match operand {
        Operand::Number(digit) => operates(Op::Jump(Jump::Goto(Target::Label(digit)))),
        Operand::Single => operates(Op::Jump(Jump::Goto(Target::Index))),
        Operand::Point => needs(Pending::Line(LineDigits::None)),
        Operand::Shift => needs(Pending::Goto),
        _ => dropped(),
    }
}

/// One more digit of a line's number.
fn with_line_digit(digits: LineDigits, digit: u8) -> Reply
    ensures { reply_of result ≡ with_line_digit_of (line_digits digits) digit }
{
    match digits {
        LineDigits::None => needs(Pending::Line(LineDigits::One(digit))),
        LineDigits::One(first) => needs(Pending::Line(LineDigits::Two(first, digit))),
        LineDigits::Two(first, second) => {
            let line = 100 * first as u16 + 10 * second as u16 + digit as u16;
            complete(Command::GotoLine(line))
        }
    }
}

/// A key after `GTO .` and some digits.
fn after_line_digits(digits: LineDigits, operand: Operand) -> Reply
    ensures { reply_of result ≡ after_line_digits_of (line_digits digits) (operand_means operand) }
{
    match operand {
        Operand::Number(digit) if digit.value < 10 => with_line_digit(digits, digit.value),
        _ => dropped(),
    }
}

/// A key after GSB.
fn after_gosub(operand: Operand) -> Reply
    ensures { reply_of result ≡ after_call (operand_means operand) }
{
    match operand {
        Operand::Number(digit) => operates(Op::Jump(Jump::Gosub(Target::Label(digit)))),
        Operand::Single => operates(Op::Jump(Jump::Gosub(Target::Index))),
        Operand::Shift => needs(Pending::Gosub),
        _ => dropped(),
    }
}

/// A key after LBL.
fn after_label(operand: Operand) -> Reply
    ensures { reply_of result ≡ after_number_key 16 ops.label (operand_means operand) }
{
    match operand {
        Operand::Number(label) => operates(Op::Jump(Jump::Label(label))),
        _ => dropped(),
    }
}

/// A key after SF, CF or F?.
fn after_flag(flag_use: FlagUse, operand: Operand) -> Reply
    ensures { reply_of result ≡ after_number_key 6 (on_flag flag_use) (operand_means operand) }
{
    match operand {
        Operand::Number(digit) if digit.value < 6 => operates(flag_use.on(Flag {
            number: digit.value,
        })),
        _ => dropped(),
    }
}

/// A key after WINDOW.
fn after_window(operand: Operand) -> Reply
    ensures { reply_of result ≡ after_number_key 8 ops.window (operand_means operand) }
{
    match operand {
        Operand::Number(digit) if digit.value < 8 => operates(Op::Windows(Windows::Show(Window {
            number: digit.value,
        }))),
        _ => dropped(),
    }
}

/// A key other than ON.
fn take(pending: Pending, key: Key) -> Reply
    ensures { reply_of result ≡ taken (prefix_of pending) key }
{
    match pending {
        Pending::Nothing => meant(plainly(key)),
        Pending::F => meant(shifted_f(key)),
        Pending::G => meant(shifted_g(key)),
        Pending::Register(access) => after_access(access, operand_of(key)),
        Pending::HighRegister(access) => after_point(access, operand_of(key)),
        Pending::Goto => after_goto(operand_of(key)),
        Pending::Line(digits) => after_line_digits(digits, operand_of(key)),
        Pending::Gosub => after_gosub(operand_of(key)),
        Pending::Label => after_label(operand_of(key)),
        Pending::Flag(flag_use) => after_flag(flag_use, operand_of(key)),
        Pending::Window => after_window(operand_of(key)),
    }
}

/// What a key gives after the pending prefix. ON is done whatever is pending.
fn reply_to(pending: Pending, key: Key) -> Reply
    ensures { reply_of result ≡ press_key_of (prefix_of pending) key }
{
    match key {
        Key::On => complete(Command::On),
        _ => take(pending, key),
    }
}

/// What a key gives after the pending prefix, which becomes what is pending then. A key that the prefix
/// does not take is dropped together with it.
pub fn press_key(prefix: &mut Prefix, key: Key) -> Pressed
    ensures pressed { (prefix.new, pressed_of result) ≡ press_key_of prefix.old key }
    ensures settled { result ≢ Pressed.More → prefix.new ≡ keys.nothing_pending }
{
    let reply = reply_to(prefix.pending, key);
    prefix.pending = reply.pending;
    reply.pressed
}
