//! Captures of the pcapng format as the bytes of a classic capture.
//!
//! A pcapng capture is a list of blocks (draft-ietf-opsawg-pcapng). Its definition,
//! `specs/Blocks.antt`, reads each list of bytes as the packets before the first break and that
//! break, and [`one_story`] says that no other reading of these bytes is one. `specs/Breaks.antt`
//! has the breaks as a table, and `specs/Classic.antt` says which classic capture holds the
//! packets. An [`NgSource`] gives the bytes of that capture, however its own source cuts the input
//! and whichever reads fail, and then tells the first break.
//!
//! Read `specs/Front.antt`, `specs/Breaks.antt` and `specs/Blocks.antt`, then `specs/Classic.antt`
//! and `laws.rt`; `specs/Progress.antt` and `specs/Lent.antt`, then `opening.rt` and `source.rt`.
//! The other files are the steps of `reading.rt`.
#![tactic(auto)]

mod adding;
mod breaks;
mod byte_order;
mod classic;
mod fault;
mod format;
mod front;
mod interface;
mod kind;
mod laws;
mod look;
mod numbers;
mod opening;
mod options;
mod reading;
mod ready;
mod scope;
mod source;
#[cfg(test)]
mod source_tests;
mod stage;
#[cfg(test)]
mod tests;
mod time;
mod turn;
mod window;

pub use byte_order::ByteOrder;
pub use fault::{NgBreak, NgError, NgKind};
pub use interface::Interface;
pub use kind::BlockKind;
pub use laws::one_story;
pub use opening::NgOpening;
pub use source::NgSource;
