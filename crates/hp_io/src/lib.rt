//! Sources and sinks of bytes that count their faults. Whatever reads or writes in this project is
//! generic over the two traits, and so is proved once for streams in memory and for the real ones.
//!
//! - Reading: the trait `Source`, `next_byte`, and `read_limited` to the end within a limit.
//! - Writing: the trait `Sink`, and `write_whole` for a whole piece.
//! - Streams: `MemSource` and `MemSink` in memory, `StdSource` and `StdSink` over std's.
//! - Errors: `Failed`, `NoMemory`, and `ReadStop` of a limited read.
#![tactic(auto)]

mod failures;
mod limited;
mod memory_sink;
mod memory_source;
mod sinks;
mod sources;
mod standard;

pub use failures::{Failed, NoMemory};
pub use limited::{Bytes, ReadStop, Taken, read_limited};
pub use memory_sink::MemSink;
pub use memory_source::MemSource;
pub use sinks::{Sink, write_whole};
pub use sources::{Source, next_byte};
pub use standard::{StdSink, StdSource};
