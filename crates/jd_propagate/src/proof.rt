//! What both searches answer, a refutation, a model or the budget's new lines, so that whoever asks
//! needn't know which one did: the learning search hands on an answer of the plain one as it is.
use crate::{Bits, Log};

/// What a search for a proof answers.
#[derive(Drop)]
pub enum Proof {
    /// The lines are right and end with the empty clause, or there are none where it is given.
    Refuted(Log),
    /// These values of the inputs make every clause true by propagation.
    Model(Bits),
    /// The budget was spent on lines that are all new.
    Unknown(Log),
}
