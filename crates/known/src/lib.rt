//! Knowledge in proofs alone: what is known of a value's past, kept beside the value.
//!
//! A queue that gave its items away holds nothing of them, and yet a contract may speak of all that
//! went through it. [`Known`] carries such a list, or any other plain data, as the view of a seat
//! at a table of one word. Each [`Known::change`] makes of it what its [`Change`] says of the value
//! that it is told. No code reads it, and a change takes no memory.
//!
//! Read `change.rt`, then `known.rt`. `specs/Told.antt` says what is known after a step.
#![tactic(auto)]

mod change;
mod known;
#[cfg(test)]
mod tests;

pub use change::{Change, Start};
pub use known::Known;
