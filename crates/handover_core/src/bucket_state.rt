/// A bucket as the machine knows it.
#[derive(Clone, Copy)]
pub struct BucketState {
    /// The core that owns it: its entry in the indirection table.
    pub owner: u8,
    /// The place of its newest stint's first packet.
    pub start: u32,
    /// The passage word that the dispatcher saw last.
    pub seen: u64,
    /// Its passage word.
    pub word: u64,
    /// How many packets were worked, where the table is on the shelf.
    pub shelf: Option<u32>,
}
