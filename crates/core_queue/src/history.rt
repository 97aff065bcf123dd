use crate::Seen;
use std::collections::LinkedList;
use toeplitz::Key;

/// What an end of a lane knows. An end that serves one direction alone tells nothing of the other:
/// its list is empty and its count 0. It exists in proofs alone, where its numbers have no greatest
/// value.
pub struct LaneHistory {
    /// The hash key of the run.
    pub key: Key,
    /// The number of buckets of the run.
    pub buckets: u16,
    /// What was sent, in order.
    pub sent: LinkedList<Seen>,
    /// What was taken, in order.
    pub taken: LinkedList<Seen>,
    /// How often a push met the lane full.
    pub fulls: u64,
    /// How often a take met the lane empty.
    pub empties: u64,
}
