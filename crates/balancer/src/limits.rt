/// The greatest load of a bucket, and the greatest base of a core.
pub const MOST_LOAD: u64 = 1_099_511_627_776;

/// The most proposals of a round.
pub const MOST_PROPOSALS: u8 = 16;

/// The line of a plan text that tells of its first bucket, counted from 1.
pub const FIRST_BUCKET_LINE: u32 = 4;
