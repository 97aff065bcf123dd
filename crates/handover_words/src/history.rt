// What an end of a shelf knows. These types exist in proofs alone.
use std::collections::LinkedList;
use toeplitz::Key;

/// A passage word that was met.
pub struct Met {
    pub bucket: u16,
    pub word: u64,
}

/// A bucket that the end holds, with the place at which it was claimed.
pub struct Claim {
    pub bucket: u16,
    pub place: u32,
}

/// A custody that the end began and ended: claimed at `from`, released with `to` packets done.
pub struct Stretch {
    pub bucket: u16,
    pub from: u32,
    pub to: u32,
}

/// What an end of a shelf knows. Each list has its newest entry first; a seat that was joined to
/// another has its own entries and then the other's.
pub struct ShelfHistory {
    /// The hash key of the run.
    pub key: Key,
    /// The number of buckets of the run.
    pub buckets: u16,
    /// How many of the shelf's ends it stands for.
    pub shares: u64,
    /// The words that it met.
    pub met: LinkedList<Met>,
    /// The buckets that it holds.
    pub held: LinkedList<Claim>,
    /// The custodies that it ended.
    pub ended: LinkedList<Stretch>,
}
