//! What is answered of a source: the first line outside the grammar, or what the check of the
//! certificate says.
use jd_check::Checked;

/// What a check of a source's problem and certificate says.
#[derive(Drop)]
pub enum SourceChecked {
    /// The first line outside the grammar, counted from 1 over the whole source, or the number after
    /// the last line's where the source ends too early.
    BadLine(u64),
    /// The problem and the certificate are good texts, and this is what the check of the certificate
    /// says.
    Checked(Checked),
}
