//! Bytes in and bytes out.
//!
//! A `Source` gives bytes and a `Sink` takes them. Each counts its failed calls, so that a caller's
//! contract can name the cause of a failure, and may tell what is left or what was written.
//! `read_all` and `write_all` are proved over any of them. There are sources and sinks over memory,
//! with planned failures, and over what a runtime reads and prints. `Tokens` walks the words of a
//! text, with their places, in one pass and without memory.
#![tactic(auto)]

mod attempt;
mod line;
mod mem_sink;
mod mem_source;
mod plan;
mod read;
mod std_sink;
mod std_source;
mod streams;
mod words;
mod write;

pub use line::push_word;
pub use mem_sink::MemSink;
pub use mem_source::MemSource;
pub use read::{ReadRefusal, read_all};
pub use std_sink::StdSink;
pub use std_source::StdSource;
pub use streams::{Failed, Sink, Source};
pub use words::{Tokens, Word};
pub use write::{WriteRefusal, write_all};
