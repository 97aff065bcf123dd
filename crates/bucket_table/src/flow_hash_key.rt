ghost use Rattle.std.specs.Prelude.{◌≡◌, ◌<◌, ◌*◌, ◌+◌, ◌≤◌, length};

use crate::flow_hasher::{FlowHasher, number_of};
use packet_fields::FlowKey;
use std::fmt;
use std::fmt::{Debug, Formatter};
use std::hash::BuildHasher;

/// How many bytes a key is made of.
pub const FLOW_HASH_KEY_BYTES: usize = 144;

/// The numbers by which flow tables hash. Whoever starts a run draws them anew and tells nobody:
/// then whoever makes a capture cannot choose flows that meet in one place of a table.
///
/// The hash is vector multiply-shift. A flow's key is eight words of 64 bits, each word is multiplied
/// by a factor of its own, and the hash is the high half of the start and the products, added up
/// modulo 2^128 ([`FlowHashKey::hash_of`] says so). Where the nine numbers are drawn evenly and
/// independently, the hashes of two different flows are independent and even, so that any k bits of
/// them agree with probability 2^-k. That bound is published (Dietzfelbinger 1996; Thorup, "High
/// Speed Hashing for Integers and Strings", 2015) and isn't proved here.
#[derive(Clone, Copy)]
pub struct FlowHashKey {
    pub(crate) start: u128,
    pub(crate) factors: [u128; 8],
}

impl Debug for FlowHashKey {
    // A key is told to nobody.
    fn fmt<W: fmt::Write>(&self, f: &mut Formatter<W>) -> fmt::Result {
        f.debug_struct("FlowHashKey").finish_non_exhaustive()
    }
}

impl BuildHasher for FlowHashKey {
    type Hasher = FlowHasher;

    ghost use Rattle.bucket_table.specs.FlowHash.{opening};

    ghost build_hasher = { opening };

    #[inline(always)]
    fn build_hasher(&self) -> FlowHasher {
        FlowHasher {
            factors: self.factors,
            sum: self.start,
            place: 0,
        }
    }
}

impl FlowHashKey {
    ghost use Rattle.bucket_table.specs.FlowHash.{key_of, flow_hash};

    /// The key of these bytes. Only drawn ones make a key that nobody knows.
    pub fn from_bytes(bytes: &[u8; FLOW_HASH_KEY_BYTES]) -> FlowHashKey
        ensures { result ≡ key_of bytes.now }
    {
        FlowHashKey {
            start: number_of(&bytes[0..16]),
            factors: [
                number_of(&bytes[16..32]),
                number_of(&bytes[32..48]),
                number_of(&bytes[48..64]),
                number_of(&bytes[64..80]),
                number_of(&bytes[80..96]),
                number_of(&bytes[96..112]),
                number_of(&bytes[112..128]),
                number_of(&bytes[128..144]),
            ],
        }
    }

    /// The hash of a flow, as its table takes it: the high half of the start and the products of the
    /// flow's eight words with a factor each, modulo 2^128.
    pub fn hash_of(&self, flow: FlowKey) -> u64
        ensures { result ≡ flow_hash self.now flow }
    {
        self.hash_one(flow)
    }
}
