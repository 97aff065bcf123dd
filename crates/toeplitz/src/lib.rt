//! The Toeplitz hash of the Microsoft RSS definition, and the bucket that a packet's hash chooses.
//!
//! [`hash`] is proved equal to an exclusive or over the set bits of its input
//! (`specs/Toeplitz.antt`), and [`hash_info`] to the hash of the addresses and ports that count for a
//! packet's class (`specs/Packet.antt`). [`KeyTables`] answers the same by tables, one look-up a byte, and
//! contracts see its key alone. A [`BucketHash`] is a key with a number of buckets, by which a
//! packet's hash chooses its bucket. [`one_bucket_each`] says that each packet of a list is in one
//! bucket, which its flow alone decides (`specs/Bucket.antt`).
//!
//! Read `specs/Bits.antt` and `specs/Toeplitz.antt`, then `key.rt` and `input_hash.rt`; then
//! `specs/Packet.antt` and `packet_hash.rt`, `specs/Bucket.antt` with `bucket_hash.rt`, and
//! `laws.rt`. `key_tables.rt` gives the same hashes, faster.
#![tactic(auto)]

mod bucket_hash;
mod input_hash;
mod key;
mod key_tables;
mod laws;
mod limit_laws;
mod packet_hash;

pub use bucket_hash::BucketHash;
pub use input_hash::{MOST_INPUT, hash};
pub use key::{DEFAULT_KEY, KEY_BYTES, Key};
pub use key_tables::KeyTables;
pub use laws::one_bucket_each;
pub use limit_laws::keys_are_stated;
pub use packet_hash::hash_info;

#[cfg(test)]
mod tests;
