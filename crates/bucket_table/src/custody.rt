/// A time in which one core had a bucket, by the bucket's packets.
#[derive(Clone, Copy, Debug, PartialEq, Eq)]
pub struct Custody {
    pub bucket: u16,
    pub core: u8,
    /// How many packets of the bucket were done when the core took it.
    pub from: u32,
    /// How many packets of the bucket were done when the core gave it up.
    pub to: u32,
}

/// A custody that has begun.
#[derive(Clone, Copy, Debug, PartialEq, Eq)]
pub struct Begun {
    pub core: u8,
    /// How many packets of the bucket were done then.
    pub from: u32,
}
