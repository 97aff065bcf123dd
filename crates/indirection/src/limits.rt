/// The most cores that a table may name.
pub const MOST_CORES: u8 = 64;

/// The most buckets that a table may have.
pub const MOST_BUCKETS: u16 = 2048;
