//! Where bytes come from, and where they go.
//!
//! A [`Source`] is read, a [`Sink`] is written. Each has a law that says what a caller may rely on,
//! also if a read gives fewer bytes than there is room for, or a write takes fewer than it is
//! handed.
#![tactic(auto)]

/// How many bytes a reader or a writer over a buffer of its own holds at most.
pub const BUFFER_BYTES: usize = 65_536;

mod growing;
mod out;
mod sink;
mod sink_buffer;
mod source;
mod write;

pub use growing::Growing;
pub use out::Out;
pub use sink::{FromWrite, Sink, WriteOnce};
pub use sink_buffer::{SinkBuffer, ToSink};
pub use source::{Bytes, Failed, FromRead, ReadOnce, Source};
pub use write::{WriteFailed, write_bytes};
