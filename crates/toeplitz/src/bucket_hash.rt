use crate::Key;

/// How the bucket of a packet is chosen: it is the packet's hash by the key, modulo the number of
/// buckets (Microsoft RSS).
#[derive(Clone, Copy, Debug, PartialEq, Eq)]
pub struct BucketHash {
    pub key: Key,
    pub buckets: u16,
}
