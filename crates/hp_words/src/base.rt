// Bases as numbers, for digits that are entered and shown.
ghost use Rattle.std.specs.Prelude.{◌≡◌, ◌≤◌};
ghost use Rattle.hp_model.specs.State.{radix};

use hp_model::Base;

/// The base as a number.
pub fn radix(base: Base) -> u64
    ensures value { result ≡ radix base }
    ensures least { 2 ≤ result }
    ensures greatest { result ≤ 16 }
{
    match base {
        Base::Hex => 16,
        Base::Dec => 10,
        Base::Oct => 8,
        Base::Bin => 2,
    }
}
