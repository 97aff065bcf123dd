ghost use Rattle.std.specs.Prelude.{◌≡◌, ◌≤◌, true, length};
ghost use Rattle.packet_fields.specs.Ipv6.{is_ipv6, ipv6_length, ipv6_key, tcp6_flags};

use crate::wire::{
    IPV6_HEADER, PROTOCOL_TCP, PROTOCOL_UDP, TCP_FLAGS_AT, TCP_HEADER, UDP_HEADER, read_u16,
    read_u128,
};
use crate::{Class, FlowKey};

/// Whether a whole IPv6 header stands there.
pub fn is_ipv6(packet: &[u8]) -> bool
    ensures { result ≡ is_ipv6 packet.now }
{
    packet.len() >= IPV6_HEADER && packet[0] / 16 == 6
}

// How many of a packet's bytes belong to it.
fn length_of(packet: &[u8]) -> usize
    requires { 40 ≤ length packet.now }
    ensures value { result ≡ ipv6_length packet.now }
    ensures within { result ≤ length packet.now }
{
    let payload = read_u16(packet, 4) as usize;
    if payload == 0 {
        packet.len()
    } else {
        (IPV6_HEADER + payload).min(packet.len())
    }
}

/// The key of an IPv6 packet whose header is whole, and TCP's flags.
pub fn ipv6_fields(packet: &[u8]) -> (FlowKey, u8)
    requires { is_ipv6 packet.now ≡ true }
    ensures key { result.0 ≡ ipv6_key packet.now }
    ensures flags { result.1 ≡ tcp6_flags packet.now }
{
    let length = length_of(packet);
    let source = read_u128(packet, 8);
    let destination = read_u128(packet, 24);
    if packet[6] == PROTOCOL_TCP && length >= IPV6_HEADER + TCP_HEADER {
        let key = FlowKey {
            class: Class::Tcp6,
            source,
            destination,
            source_port: read_u16(packet, IPV6_HEADER),
            destination_port: read_u16(packet, IPV6_HEADER + 2),
            protocol: PROTOCOL_TCP,
        };
        return (key, packet[IPV6_HEADER + TCP_FLAGS_AT]);
    }
    if packet[6] == PROTOCOL_UDP && length >= IPV6_HEADER + UDP_HEADER {
        let key = FlowKey {
            class: Class::Udp6,
            source,
            destination,
            source_port: read_u16(packet, IPV6_HEADER),
            destination_port: read_u16(packet, IPV6_HEADER + 2),
            protocol: PROTOCOL_UDP,
        };
        return (key, 0);
    }
    let key = FlowKey {
        class: Class::Ip6,
        source,
        destination,
        source_port: 0,
        destination_port: 0,
        protocol: packet[6],
    };
    (key, 0)
}
