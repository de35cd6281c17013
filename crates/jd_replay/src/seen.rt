//! What is kept of a run: that it is late, or its end with the final state.
use hp_model::End;
use jd_start::Start;

/// What is seen of a run: that it wasn't over after the problem's steps, or how it ended and the
/// state there.
#[derive(Drop)]
pub enum Seen {
    Late,
    Ended(End, Start),
}
