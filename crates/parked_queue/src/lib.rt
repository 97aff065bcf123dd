//! Parked cells: the packets and marks of buckets that a core can't work yet, since it has not
//! taken their tables over.
//!
//! A [`Lot`] is seen by contracts as the list of cells of each bucket, oldest first, and the
//! buckets that have some, in the order in which they began to wait (`specs/Parked.antt`). The
//! cells are chained by their links, so parking moves no packet and takes no memory.
//!
//! Read `specs/Parked.antt`, then `lot.rt`. `parking.rt`, `chains.rt` and `line.rt` keep a lot's
//! cells in memory, and `specs/Chained.antt` and `specs/Lined.antt` say how.
#![tactic(auto)]

mod chains;
mod line;
mod lot;
mod parking;
#[cfg(test)]
mod tests;

pub use lot::Lot;
