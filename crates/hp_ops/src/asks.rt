// The kind of what an operation asks, which tells its questions.
ghost use Rattle.std.specs.Prelude.{◌≡◌};
ghost use Rattle.hp_ops.specs.Meaning.{operation, of_arithmetic, of_double, of_bits, of_setting, of_flags, of_jump, named, of_registers, where_is};
ghost use Rattle.hp_model.specs.State.{Control};
ghost use Rattle.hp_model.specs.Questions.{questions, place_questions, label_questions};
ghost use Rattle.hp_ops.specs.Kinds.{Asks};

use crate::groups::{Arithmetic, Bits, Double, Flags, Jump, Place, Registers, Setting, Target};
use crate::op::{AskKind, Op};

impl Arithmetic {
    fn asks_kind(self) -> AskKind
        ensures { (c : Control) → Asks result c (questions c (of_arithmetic self)) }
    {
        match self {
            Arithmetic::Divide | Arithmetic::Remainder => AskKind::Divisor,
            Arithmetic::SquareRoot => AskKind::Negative,
            _ => AskKind::Nothing,
        }
    }
}

impl Double {
    fn asks_kind(self) -> AskKind
        ensures { (c : Control) → Asks result c (questions c (of_double self)) }
    {
        match self {
            Double::Multiply => AskKind::Nothing,
            _ => AskKind::Double,
        }
    }
}

impl Bits {
    fn asks_kind(self) -> AskKind
        ensures { (c : Control) → Asks result c (questions c (of_bits self)) }
    {
        match self {
            Bits::MaskLeft | Bits::MaskRight => AskKind::Count,
            Bits::CountOnes => AskKind::Nothing,
            Bits::Set | Bits::Clear => AskKind::Bit,
            Bits::Test => AskKind::BitTest,
        }
    }
}

impl Setting {
    fn asks_kind(self) -> AskKind
        ensures { (c : Control) → Asks result c (questions c (of_setting self)) }
    {
        match self {
            Setting::Size => AskKind::Size,
            _ => AskKind::Nothing,
        }
    }
}

impl Flags {
    fn asks_kind(self) -> AskKind
        ensures { (c : Control) → Asks result c (questions c (of_flags self)) }
    {
        match self {
            Flags::Test(_) => AskKind::Flag,
            _ => AskKind::Nothing,
        }
    }
}

impl Target {
    fn asks_kind(self) -> AskKind
        ensures { (c : Control) → Asks result c (label_questions (named self)) }
    {
        match self {
            Target::Label(_) => AskKind::Nothing,
            Target::Index => AskKind::Label,
        }
    }
}

impl Jump {
    fn asks_kind(self) -> AskKind
        ensures { (c : Control) → Asks result c (questions c (of_jump self)) }
    {
        match self {
            Jump::Goto(target) | Jump::Gosub(target) => target.asks_kind(),
            _ => AskKind::Nothing,
        }
    }
}

impl Place {
    fn asks_kind(self) -> AskKind
        ensures { (c : Control) → Asks result c (place_questions c (where_is self)) }
    {
        match self {
            Place::Through => AskKind::Index,
            _ => AskKind::Nothing,
        }
    }
}

impl Registers {
    fn asks_kind(self) -> AskKind
        ensures { (c : Control) → Asks result c (questions c (of_registers self)) }
    {
        match self {
            Registers::Store(place) | Registers::Recall(place) => place.asks_kind(),
            Registers::ExchangeThrough => AskKind::Index,
            _ => AskKind::Nothing,
        }
    }
}

impl Op {
    /// What the operation asks of the data before control is decided.
    pub fn asks_kind(self) -> AskKind
        ensures { (c : Control) → Asks result c (questions c (operation self)) }
    {
        match self {
            Op::Arithmetic(op) => op.asks_kind(),
            Op::Double(op) => op.asks_kind(),
            Op::RotateMany(_) => AskKind::Count,
            Op::Bits(op) => op.asks_kind(),
            Op::Setting(op) => op.asks_kind(),
            Op::Test(_) => AskKind::Test,
            Op::Loop(_) => AskKind::Zero,
            Op::Flags(op) => op.asks_kind(),
            Op::Jump(op) => op.asks_kind(),
            Op::Registers(op) => op.asks_kind(),
            _ => AskKind::Nothing,
        }
    }
}
