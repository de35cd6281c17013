//! Word sizes, integer modes, bases, words as numbers, and what operations work on beside memory. A
//! size and a word carry their bounds, so that no crate above tests them again.
#![tactic(auto)]

pub mod answer;
pub mod base;
pub mod content;
pub mod size;
pub mod word;

// Sizes, modes and bases.
pub use base::radix;
pub use hp_model::{Base, Mode};
pub use size::WordSize;

// Words, and numbers as patterns.
pub use word::{Word, fits, low};

// What operations work on, and what they answer.
pub use answer::Error0;
pub use content::Content;
pub use hp_model::Answer;
