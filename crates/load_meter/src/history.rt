// What an end of a meter knows. Proofs alone read these types.
use std::collections::LinkedList;

/// The cost of the packets that a core has worked.
#[derive(Clone, Copy)]
pub struct CoreLoad {
    pub core: u8,
    pub worked: u64,
}

/// What an end of a meter knows. Each list has its newest entry first; an end that was joined to
/// another has its own entries and then the other's.
pub struct LoadHistory {
    /// The number of cores.
    pub cores: u8,
    /// What it noted, and what ends that it took over noted.
    pub noted: LinkedList<CoreLoad>,
    /// What it read.
    pub read: LinkedList<CoreLoad>,
    /// What ends that it took over had read or been told.
    pub told: LinkedList<CoreLoad>,
}
