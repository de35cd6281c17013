// The numbers that operations carry. Their bounds stand in the types.
ghost use Rattle.std.specs.Prelude.{◌<◌};

/// A hexadecimal digit, which is also a label: 0 to 15.
#[derive(Clone, Copy, Debug, PartialEq, Eq)]
pub struct HexDigit {
    pub value: u8,
    pub ghost in_range: { value < 16 },
}

/// A flag: 0 to 5. Flag 3 shows leading zeros, 4 is the carry and 5 is out of range.
#[derive(Clone, Copy, Debug, PartialEq, Eq)]
pub struct Flag {
    pub number: u8,
    pub ghost in_range: { number < 6 },
}

/// A register that is named by its number: 0 to 31.
#[derive(Clone, Copy, Debug, PartialEq, Eq)]
pub struct Register {
    pub number: u8,
    pub ghost in_range: { number < 32 },
}

/// A window of eight digits: 0, the lowest, to 7.
#[derive(Clone, Copy, Debug, PartialEq, Eq)]
pub struct Window {
    pub number: u8,
    pub ghost in_range: { number < 8 },
}
