//! The keys of the HP-16C: what each means by itself and after a shift, and the prefixes of commands that
//! take several keys. Their words in a key file stand with them in hp_model.
#![tactic(auto)]

mod commands;
mod meanings;
mod operands;
mod prefixes;

// A key, and the prefix that it is pressed with.
pub use hp_model::Key;
pub use prefixes::{Prefix, press_key};

// What a key gives, and what the display shows after a command.
pub use commands::{Command, Pressed, Shift};
pub use hp_model::View;
