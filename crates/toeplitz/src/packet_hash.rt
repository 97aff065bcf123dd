ghost use Rattle.std.specs.Prelude.{◌≡◌};
ghost use Rattle.byteorder.specs.Endian.{big_bytes};
ghost use Rattle.toeplitz.specs.Packet.{addresses_of, ends_of, ipv6_addresses_of, ipv6_ends_of, packet_hash};

use crate::{Key, hash};
use byteorder::{BigEndian, ByteOrder};
use packet_fields::{Class, FlowKey, PacketInfo};

// The lowest 32 bits of an address, which are an address of IPv4.
fn low_bits(address: u128) -> u32
    ensures { big_bytes 4 result ≡ big_bytes 4 address }
{
    (address % 0x1_0000_0000) as u32
}

// Both addresses in network byte order.
pub(crate) fn addresses(flow: &FlowKey) -> [u8; 8]
    ensures { result ≡ addresses_of flow.now }
{
    let mut bytes = [0; 8];
    BigEndian::write_u32(&mut bytes, low_bits(flow.source));
    BigEndian::write_u32(&mut bytes[4..], low_bits(flow.destination));
    bytes
}

// Both addresses and both ports in network byte order.
pub(crate) fn ends(flow: &FlowKey) -> [u8; 12]
    ensures { result ≡ ends_of flow.now }
{
    let mut bytes = [0; 12];
    bytes[..8].copy_from_slice(&addresses(flow));
    BigEndian::write_u16(&mut bytes[8..], flow.source_port);
    BigEndian::write_u16(&mut bytes[10..], flow.destination_port);
    bytes
}

// Both addresses of IPv6 in network byte order.
pub(crate) fn ipv6_addresses(flow: &FlowKey) -> [u8; 32]
    ensures { result ≡ ipv6_addresses_of flow.now }
{
    let mut bytes = [0; 32];
    BigEndian::write_u128(&mut bytes, flow.source);
    BigEndian::write_u128(&mut bytes[16..], flow.destination);
    bytes
}

// Both addresses of IPv6 and both ports in network byte order.
pub(crate) fn ipv6_ends(flow: &FlowKey) -> [u8; 36]
    ensures { result ≡ ipv6_ends_of flow.now }
{
    let mut bytes = [0; 36];
    bytes[..32].copy_from_slice(&ipv6_addresses(flow));
    BigEndian::write_u16(&mut bytes[32..], flow.source_port);
    BigEndian::write_u16(&mut bytes[34..], flow.destination_port);
    bytes
}

/// The hash of a packet (Microsoft RSS): of both addresses and both ports where its class has
/// ports, of both addresses where it has none, and 0 for the class `Other`. Of an address the
/// lowest 32 bits count over IPv4, and all 128 over IPv6.
#[tactic(auto, unfolding(crate::specs::Packet::packet_hash))]
pub fn hash_info(key: &Key, packet: &PacketInfo) -> u32
    ensures { result ≡ packet_hash key.now packet.now }
{
    match packet.key.class {
        Class::Tcp | Class::Udp => hash(key, &ends(&packet.key)),
        Class::Ip => hash(key, &addresses(&packet.key)),
        Class::Tcp6 | Class::Udp6 => hash(key, &ipv6_ends(&packet.key)),
        Class::Ip6 => hash(key, &ipv6_addresses(&packet.key)),
        Class::Other => 0,
    }
}
