// Numbers that the headers are made of, and the constants of their formats.
ghost use Rattle.std.specs.Prelude.{◌≡◌, ◌≤◌, ◌+◌, length};
ghost use Rattle.packet_fields.specs.Wire.{u16_at, u32_at, u128_at};

use byteorder::{BigEndian, ByteOrder};

/// Bytes of an Ethernet header (IEEE 802.3; RFC 894).
pub const ETHERNET_HEADER: usize = 14;

/// Where the type stands in an Ethernet header.
pub const TYPE_AT: usize = 12;

/// The type of IPv4 (RFC 894).
pub const TYPE_IPV4: u16 = 0x0800;

/// The type of IPv6 (RFC 2464, section 3).
pub const TYPE_IPV6: u16 = 0x86dd;

/// The type of a VLAN tag (IEEE 802.1Q).
pub const TYPE_TAG: u16 = 0x8100;

/// The type of a service tag (IEEE 802.1ad).
pub const TYPE_SERVICE_TAG: u16 = 0x88a8;

/// How many tags are stepped over.
pub const MOST_TAGS: u8 = 2;

/// Bytes of an IPv4 header without options (RFC 791, section 3.1).
pub const IPV4_HEADER: usize = 20;

/// The bit of the fragment field that says that more fragments follow (RFC 791, section 3.1).
pub const MORE_FRAGMENTS: u16 = 0x2000;

/// The bits of the fragment field that hold the offset (RFC 791, section 3.1).
pub const FRAGMENT_OFFSET: u16 = 0x1fff;

/// Bytes of an IPv6 header (RFC 8200, section 3).
pub const IPV6_HEADER: usize = 40;

/// The protocol number of TCP (RFC 9293, section 3.1).
pub const PROTOCOL_TCP: u8 = 6;

/// The protocol number of UDP (RFC 768).
pub const PROTOCOL_UDP: u8 = 17;

/// Bytes of a TCP header without options (RFC 9293, section 3.1).
pub const TCP_HEADER: usize = 20;

/// Where the control bits stand in a TCP header (RFC 9293, section 3.1).
pub const TCP_FLAGS_AT: usize = 13;

/// Bytes of a UDP header (RFC 768).
pub const UDP_HEADER: usize = 8;

/// The number in the two bytes from a place on, in network byte order.
#[tactic(auto, unfolding(crate::specs::Wire::u16_at))]
pub fn read_u16(bytes: &[u8], at: usize) -> u16
    requires { at + 2 ≤ length bytes.now }
    ensures { result ≡ u16_at at bytes.now }
{
    BigEndian::read_u16(&bytes[at..])
}

/// The number in the four bytes from a place on, in network byte order.
#[tactic(auto, unfolding(crate::specs::Wire::u32_at))]
pub fn read_u32(bytes: &[u8], at: usize) -> u32
    requires { at + 4 ≤ length bytes.now }
    ensures { result ≡ u32_at at bytes.now }
{
    BigEndian::read_u32(&bytes[at..])
}

/// The number in the sixteen bytes from a place on, in network byte order.
#[tactic(auto, unfolding(crate::specs::Wire::u128_at))]
pub fn read_u128(bytes: &[u8], at: usize) -> u128
    requires { at + 16 ≤ length bytes.now }
    ensures { result ≡ u128_at at bytes.now }
{
    BigEndian::read_u128(&bytes[at..])
}
