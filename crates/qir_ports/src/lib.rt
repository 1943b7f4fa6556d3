//! Where a text comes from and where output goes: sources and sinks of bytes, in memory and over
//! readers and writers such as the standard streams, and the two calls that read and write whole texts.
#![tactic(auto)]

mod in_memory;
mod port;
mod stream;
mod transfer;

pub use in_memory::{Calls, MemSink, MemSource};
pub use port::{Failed, Sink, Source};
pub use stream::{StdSink, StdSource, SteadyRead, SteadyWrite};
pub use transfer::{ReadError, WriteStop, read_all, write_all};
