//! The ends that bytes come from and go to, the bytes that are read ahead, and the pieces that a line
//! is made of.
//!
//! A [`Source`] tells contracts the bytes that it has left, a [`Sink`] which lists may be what was
//! written, and both how many of their calls have failed. So a contract above speaks of whole
//! lists of bytes, and ties each fault that it answers to a call that failed. A [`Window`] is the
//! list of bytes that a reader has read ahead.
//!
//! Read `source.rt` and `sink.rt`, the traits, with `specs/Faults.antt` and `specs/Written.antt`;
//! then their ends in memory, `memory_source.rt`, `memory_sink.rt` and `fold_sink.rt`, and over
//! files, `std_source.rt` and `std_sink.rt`. The other files stand by themselves; [`Gate`] and
//! [`Link`] are for the layers above.
#![tactic(auto)]

mod fold_sink;
mod gate;
mod link;
mod memory_sink;
mod memory_source;
mod piece;
mod refusal;
mod sink;
mod source;
mod std_sink;
mod std_source;
#[cfg(test)]
mod tests;
mod text;
mod window;

pub use fold_sink::FoldSink;
pub use gate::{Gate, OpenGate};
pub use link::Link;
pub use memory_sink::MemorySink;
pub use memory_source::MemorySource;
pub use piece::{Piece, hex4, write_pieces};
pub use refusal::{Failed, NoMemory};
pub use sink::{Sink, write_whole};
pub use source::Source;
pub use std_sink::StdSink;
pub use std_source::StdSource;
pub use text::Text;
pub use window::{Window, read_at};
