/// A bucket among the ranked ones, by the owner and the load that it had when they were ranked.
#[derive(Clone, Copy)]
pub struct Ranked {
    pub owner: u8,
    pub load: u64,
    pub bucket: u16,
}
