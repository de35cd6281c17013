//! What a run begins with, apart from the problem that it belongs to.
use crate::nibbles::Nibbles;
use hp_words::Content;

/// What a run of a routine begins with: the stack, LAST X, the index register, the flags, and the
/// register nibbles from nibble 0 upwards.
#[derive(Drop)]
pub struct Start {
    pub content: Content,
    pub nibbles: Nibbles,
}
