/// A move that was ordered from outside.
#[derive(Clone, Copy, Debug, PartialEq, Eq)]
pub struct MoveOrder {
    /// Its position: it comes behind so many packets.
    pub at: u32,
    /// The bucket that is to move.
    pub bucket: u16,
    /// The core that is to own it.
    pub to: u8,
}
