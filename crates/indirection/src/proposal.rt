/// A move that a round of balancing proposes.
#[derive(Clone, Copy, Debug, PartialEq, Eq)]
pub struct Proposal {
    /// The bucket that is to move.
    pub bucket: u16,
    /// The core that owns it.
    pub from: u8,
    /// The core that is to own it.
    pub to: u8,
    /// By how much the move helps: the imbalance falls by this number times twice the square of
    /// the number of cores.
    pub gain: u128,
}
