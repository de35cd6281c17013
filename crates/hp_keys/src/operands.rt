// Keys as operands of a prefix: a digit, the point, or one of the keys that stand for I, (i) and f.
ghost use Rattle.std.specs.Prelude.{◌≡◌, ◌<◌};
ghost use Rattle.hp_model.specs.Prefixes.{operand_of as operand_of_key, number};
ghost use Rattle.hp_keys.specs.Operands.{operand_means};

use hp_model::Key;
use hp_ops::HexDigit;

/// A key as the operand of a prefix: a digit, `.`, `SST` for the index register, `R/S` for the register
/// that it names, `f`, or a key that no prefix takes.
#[derive(Clone, Copy, Debug, PartialEq, Eq)]
pub enum Operand {
    Number(HexDigit),
    Point,
    Single,
    Run,
    Shift,
    Other,
}

/// A digit as an operand.
fn digit(value: u8) -> Operand
    requires { value < 16 }
    ensures { operand_means result ≡ number value }
{
    Operand::Number(HexDigit { value })
}

/// A key as an operand.
pub fn operand_of(key: Key) -> Operand
    ensures { operand_means result ≡ operand_of_key key }
{
    match key {
        Key::Digit0 => digit(0),
        Key::Digit1 => digit(1),
        Key::Digit2 => digit(2),
        Key::Digit3 => digit(3),
        Key::Digit4 => digit(4),
        Key::Digit5 => digit(5),
        Key::Digit6 => digit(6),
        Key::Digit7 => digit(7),
        Key::Digit8 => digit(8),
        Key::Digit9 => digit(9),
        Key::DigitA => digit(10),
        Key::DigitB => digit(11),
        Key::DigitC => digit(12),
        Key::DigitD => digit(13),
        Key::DigitE => digit(14),
        Key::DigitF => digit(15),
        Key::Point => Operand::Point,
        Key::SingleStep => Operand::Single,
        Key::RunStop => Operand::Run,
        Key::ShiftF => Operand::Shift,
        _ => Operand::Other,
    }
}
