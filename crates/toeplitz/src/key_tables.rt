// A key's hashes of single bytes, worked out beforehand.
ghost use Rattle.std.specs.Prelude.{◌≡◌, ◌≤◌, ◌+◌, ◌++◌, ◌∷◌, [], map, length, vec_len, vec_capacity, IfOk};
ghost use Rattle.std.specs.List.{range_with_len};
ghost use Rattle.toeplitz.specs.Packet.{packet_hash};
ghost use Rattle.toeplitz.specs.Toeplitz.{toeplitz};

use crate::input_hash::byte_hash;
use crate::packet_hash::{addresses, ends, ipv6_addresses, ipv6_ends};
use crate::{Key, MOST_INPUT};
use packet_fields::{Class, PacketInfo};
use rss_base::NoMemory;
use std::alloc::Global;
use std::marker::Model;

// The numbers of a table: one for each byte.
const BYTES: usize = 256;

/// The hash of a key by tables. For each place of an input there is one number for each byte: the
/// hash of this byte by the key from that place on. The hash is linear over exclusive or, so the hash
/// of an input is the exclusive or of the numbers of its bytes. Contracts see the key.
#[derive(Drop)]
pub struct KeyTables {
    key: Key,
    // Those of place 0 first.
    hashes: Vec<u32>,
}

impl Model for KeyTables {
    ghost use Rattle.std.specs.Prelude.{◌≡◌, length};
    ghost use Rattle.toeplitz.specs.declared.input_hash.TheConstants.{MOST_INPUT};
    ghost use Rattle.toeplitz.specs.declared.key.Key.{Key};
    ghost use Rattle.toeplitz.specs.declared.key.TheConstants.{KEY_BYTES};
    ghost use Rattle.toeplitz.specs.Tables.{AreHashes};

    ghost Value = { Key };

    ghost view = { λ t. t.key };

    ghost invariant = { λ t. AreHashes MOST_INPUT t.key.0 t.hashes.items × (length t.key.0 ≡ KEY_BYTES) };
}

// Appends the numbers of one place: the key is the one from that place on.
fn push_table(hashes: &mut Vec<u32>, key: &[u8])
    requires key { 5 ≤ length key.now }
    requires room { vec_len hashes.old + 256 ≤ vec_capacity hashes.old }
    ensures hashes { hashes.new.items ≡ hashes.old.items ++ map (λ y. toeplitz key.now (y ∷ [])) (range_with_len 0 256) }
    ensures room { vec_capacity hashes.new ≡ vec_capacity hashes.old }
{
    for byte in 0..256u16 {
        hashes.push_reserved(byte_hash(key, byte as u8));
    }
}

impl KeyTables {
    /// The tables of a key, 36 KiB. The other calls take no memory.
    pub fn new(alloc: Global, key: &Key) -> Result<KeyTables, NoMemory>
        ensures { IfOk result (λ tables. tables ≡ key.now) }
    {
        let Ok(mut hashes) = Vec::with_capacity(alloc, MOST_INPUT * BYTES) else {
            return Err(NoMemory);
        };
        for place in 0..MOST_INPUT {
            push_table(&mut hashes, &key.0[place..]);
        }
        Ok(KeyTables { key: *key, hashes })
    }

    /// The Toeplitz hash of an input, as [`hash`](crate::hash) by this key.
    pub fn hash(&self, input: &[u8]) -> u32
        requires { length input.now ≤ MOST_INPUT }
        ensures { result ≡ toeplitz self.now.0 input.now }
    {
        let mut hash = 0;
        for (at, byte) in input.iter().enumerate() {
            hash ^= self.hashes[at * BYTES + *byte as usize];
        }
        hash
    }

    /// The hash of a packet, as [`hash_info`](crate::hash_info) by this key.
    #[tactic(auto, unfolding(crate::specs::Packet::packet_hash))]
    pub fn hash_info(&self, packet: &PacketInfo) -> u32
        ensures { result ≡ packet_hash self.now packet.now }
    {
        match packet.key.class {
            Class::Tcp | Class::Udp => self.hash(&ends(&packet.key)),
            Class::Ip => self.hash(&addresses(&packet.key)),
            Class::Tcp6 | Class::Udp6 => self.hash(&ipv6_ends(&packet.key)),
            Class::Ip6 => self.hash(&ipv6_addresses(&packet.key)),
            Class::Other => 0,
        }
    }
}
