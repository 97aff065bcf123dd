//! The flows of one bucket, and which core has them.
//!
//! A [`BucketTable`] is seen by contracts as one record, and it is said of a list of packets that
//! the table stands for it (`specs/Table.antt`): its flows are the keys of the packets in the order
//! of their first packets, each with the work's fold over its packets. [`BucketTable::work`] keeps
//! that, or marks the table as short of memory.
//!
//! Flows are found by a hash that drawn numbers key ([`FlowHashKey`]). Contracts don't see them: no
//! answer depends on them.
//!
//! Read `specs/FirstKeys.antt` and `specs/Table.antt`, then `custody.rt`, `table.rt` and `laws.rt`.
//! The hash stands by itself: `specs/FlowHash.antt`, then `flow_hash_key.rt` and `flow_hasher.rt`.
#![tactic(auto)]

mod custody;
mod flow_hash_key;
mod flow_hasher;
mod laws;
mod table;
#[cfg(test)]
mod tests;

pub use custody::{Begun, Custody};
pub use flow_hash_key::{FLOW_HASH_KEY_BYTES, FlowHashKey};
pub use flow_hasher::FlowHasher;
pub use laws::{keys_by_first_packet, words_tell_flows_apart};
pub use table::BucketTable;
