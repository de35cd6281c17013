//! The text of certificates: read line by line or whole, and written. The reading of a whole text is
//! the reader of lines over its lines, and a line of a proof is read by jd_lrat alone.
//!
//! - Line by line: `CertReader` takes lines and answers `CertEvent`s; it keeps none of them.
//! - Whole: `read_cert` gives a `Cert`, the nodes of exactly one tree, or a `CertFault`.
//! - Back: `write_cert` gives a sink the canonical text, and takes no memory.
#![tactic(auto)]

mod certs;
mod faults;
mod kept;
mod lines;
mod pages;
mod reader;
mod whole;
mod words;
mod writer;

pub use certs::Cert;
pub use faults::CertFault;
pub use jd_lrat::{Line, Log};
pub use jd_trees::{CertEvent, Kind, Node};
pub use kept::node;
pub use reader::CertReader;
pub use whole::read_cert;
pub use writer::write_cert;
