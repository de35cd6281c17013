//! The data of a machine as literals, and the operations that move them without a gate. Contracts
//! speak of the data that the literals mean for values of the variables. Gates are added in
//! `jd_operations` and `jd_questions`.
#![tactic(auto)]

mod content;
mod digits;
mod flags;
mod moves;
mod nibbles;
mod registers;
mod sizes;
mod stack;

// The literals.
pub use content::SymContent;
pub use nibbles::NibbleLits;

// Answers of rows put into the stack and the flags.
pub use moves::{answer_three, answer_two, answer_x, lift, put_answer, save};

// Words of another size.
pub use sizes::{cut, widened};

// Operations.
pub use digits::change_by_digit;
pub use flags::{change_flags, flag};
pub use registers::{
    change_by_clear, change_by_exchange_index, change_by_exchange_through, change_by_recall,
    change_by_store,
};
pub use sizes::change_size;
pub use stack::change_stack;
