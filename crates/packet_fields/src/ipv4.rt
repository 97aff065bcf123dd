ghost use Rattle.std.specs.Prelude.{◌≡◌, ◌≤◌, true, length, None, Some, if◌then◌else◌};
ghost use Rattle.packet_fields.specs.Ipv4.{header_length, is_ipv4, ip_length, is_fragment, ipv4_key, tcp_flags};

use crate::wire::{
    FRAGMENT_OFFSET, IPV4_HEADER, MORE_FRAGMENTS, PROTOCOL_TCP, PROTOCOL_UDP, TCP_FLAGS_AT,
    TCP_HEADER, UDP_HEADER, read_u16, read_u32,
};
use crate::{Class, FlowKey};

/// The length of the IPv4 header in bytes, if it is one and whole.
pub fn header_of(packet: &[u8]) -> Option<usize>
    ensures { result ≡ (if is_ipv4 packet.now then Some (header_length packet.now) else None) }
{
    if packet.is_empty() {
        return None;
    }
    let header = 4 * (packet[0] % 16) as usize;
    if packet[0] / 16 == 4 && header >= IPV4_HEADER && header <= packet.len() {
        Some(header)
    } else {
        None
    }
}

// How many of a packet's bytes belong to it.
fn length_of(packet: &[u8], header: usize) -> usize
    requires long { 20 ≤ length packet.now }
    requires header { header ≡ header_length packet.now }
    ensures value { result ≡ ip_length packet.now }
    ensures within { result ≤ length packet.now }
{
    let total = read_u16(packet, 2) as usize;
    if total < header {
        packet.len()
    } else {
        total.min(packet.len())
    }
}

fn has_fragment(packet: &[u8]) -> bool
    requires { 20 ≤ length packet.now }
    ensures { result ≡ is_fragment packet.now }
{
    let field = read_u16(packet, 6);
    field & MORE_FRAGMENTS != 0 || field & FRAGMENT_OFFSET != 0
}

/// The key of an IPv4 packet whose header is whole, and TCP's flags.
pub fn ipv4_fields(packet: &[u8], header: usize) -> (FlowKey, u8)
    requires ipv4 { is_ipv4 packet.now ≡ true }
    requires header { header ≡ header_length packet.now }
    ensures key { result.0 ≡ ipv4_key packet.now }
    ensures flags { result.1 ≡ tcp_flags packet.now }
{
    let length = length_of(packet, header);
    let is_whole = !has_fragment(packet);
    let source = u128::from(read_u32(packet, 12));
    let destination = u128::from(read_u32(packet, 16));
    if packet[9] == PROTOCOL_TCP && is_whole && length >= header + TCP_HEADER {
        let key = FlowKey {
            class: Class::Tcp,
            source,
            destination,
            source_port: read_u16(packet, header),
            destination_port: read_u16(packet, header + 2),
            protocol: PROTOCOL_TCP,
        };
        return (key, packet[header + TCP_FLAGS_AT]);
    }
    if packet[9] == PROTOCOL_UDP && is_whole && length >= header + UDP_HEADER {
        let key = FlowKey {
            class: Class::Udp,
            source,
            destination,
            source_port: read_u16(packet, header),
            destination_port: read_u16(packet, header + 2),
            protocol: PROTOCOL_UDP,
        };
        return (key, 0);
    }
    let key = FlowKey {
        class: Class::Ip,
        source,
        destination,
        source_port: 0,
        destination_port: 0,
        protocol: packet[9],
    };
    (key, 0)
}
