// The fields and texts of IPv6 packets, and the two links.
use crate::{Class, FlowKey, PacketInfo, fields, key_text};
use rss_base::{Link, Text};
use std::alloc::Global;
use std::test::Fail;

// A TCP segment of 60 bytes from 2001:db8::1 port 258 to fe80::c:d port 772, its flags 12.
const SEGMENT: [u8; 60] = [
    0x60, 0, 0, 0, 0, 20, 6, 64, // version, payload length, next header, hop limit
    0x20, 0x01, 0x0d, 0xb8, 0, 0, 0, 0, 0, 0, 0, 0, 0, 0, 0, 1, // source
    0xfe, 0x80, 0, 0, 0, 0, 0, 0, 0, 0, 0, 0, 0, 0x0c, 0, 0x0d, // destination
    1, 2, 3, 4, 0, 0, 0, 0, 0, 0, 0, 0, 0x50, 0x12, 0, 0, 0, 0, 0, 0, // TCP
];

// The header of an IPv4 packet of 20 bytes with protocol 1.
const IPV4: [u8; 20] = [
    0x45, 0, 0, 20, 0, 1, 0, 0, 64, 1, 0, 0, 10, 0, 0, 1, 10, 0, 0, 2,
];

const SOURCE: u128 = 0x2001_0db8_0000_0000_0000_0000_0000_0001;

const DESTINATION: u128 = 0xfe80_0000_0000_0000_0000_0000_000c_000d;

// The segment with another byte at a place.
fn changed(at: usize, value: u8) -> [u8; 60] {
    let mut packet = SEGMENT;
    if let Some(byte) = packet.get_mut(at) {
        *byte = value;
    }
    packet
}

// The fields of a packet in a frame of this type, behind tags of these types.
fn fields_behind(
    alloc: Global,
    tags: &[u16],
    kind: u16,
    packet: &[u8],
) -> Result<PacketInfo, Fail> {
    let mut frame = [0u8; 12].to_vec(alloc)?;
    for tag in tags {
        frame.extend_from_slice(&tag.to_be_bytes())?;
        frame.extend_from_slice(&[0, 7])?;
    }
    frame.extend_from_slice(&kind.to_be_bytes())?;
    frame.extend_from_slice(packet)?;
    Ok(fields(Link::Ethernet, &frame, 5, 60))
}

// The class of a frame of raw IP.
fn raw_class(frame: &[u8]) -> Class {
    fields(Link::Raw, frame, 5, 60).key.class
}

#[test]
fn fields_stand_where_they_do(rt: HostRuntime) -> Result<(), Fail> {
    let tcp = fields_behind(rt.alloc(), &[], 0x86dd, &SEGMENT)?;
    assert_eq!(rt; tcp.key.class, Class::Tcp6);
    assert_eq!(rt;
        (tcp.key.source, tcp.key.destination),
        (SOURCE, DESTINATION)
    );
    assert_eq!(rt; (tcp.key.source_port, tcp.key.destination_port), (258, 772));
    assert_eq!(rt; (tcp.key.protocol, tcp.flags), (6, 0x12));
    assert_eq!(rt; (tcp.nanos, tcp.original), (5, 60));
    assert_eq!(rt; fields(Link::Raw, &SEGMENT, 5, 60), tcp);
    let other = fields_behind(rt.alloc(), &[], 0x86dd, &changed(6, 58))?;
    assert_eq!(rt; other.key.class, Class::Ip6);
    assert_eq!(rt; (other.key.source_port, other.key.destination_port), (0, 0));
    assert_eq!(rt; (other.key.protocol, other.flags), (58, 0));
    Ok(())
}

#[test]
fn classes_have_smallest_lengths(rt: HostRuntime) -> Result<(), Fail> {
    for (next, captured, class) in [
        (6, 60, Class::Tcp6),
        (6, 59, Class::Ip6),
        (17, 48, Class::Udp6),
        (17, 47, Class::Ip6),
        (58, 40, Class::Ip6),
        (58, 39, Class::Other),
        (6, 39, Class::Other),
        (6, 0, Class::Other),
    ] {
        let packet = changed(6, next);
        let info = fields_behind(rt.alloc(), &[], 0x86dd, &packet[..captured])?;
        assert_eq!(rt; info.key.class, class);
        assert_eq!(rt; raw_class(&packet[..captured]), class);
    }
    Ok(())
}

// Hop-by-hop options, routing, fragment and destination options: what stands behind them isn't read.
#[test]
fn extension_headers_are_next_headers(rt: HostRuntime) {
    for next in [0, 43, 44, 60] {
        let key = fields(Link::Raw, &changed(6, next), 5, 60).key;
        assert_eq!(rt; (key.class, key.protocol), (Class::Ip6, next));
        assert_eq!(rt; (key.source_port, key.destination_port), (0, 0));
    }
}

#[test]
fn payload_lengths_are_believed_but_for_0(rt: HostRuntime) {
    for (next, length, class) in [
        (6, 21, Class::Tcp6),
        (6, 20, Class::Tcp6),
        (6, 19, Class::Ip6),
        (6, 1, Class::Ip6),
        (6, 0, Class::Tcp6),
        (17, 8, Class::Udp6),
        (17, 7, Class::Ip6),
        (17, 0, Class::Udp6),
    ] {
        let mut packet = changed(5, length);
        packet[6] = next;
        assert_eq!(rt; raw_class(&packet), class);
        packet[4] = 1;
        assert!(rt; raw_class(&packet) != Class::Ip6, "256 bytes more are told");
    }
}

#[test]
fn the_version_tells_raw_packets_apart(rt: HostRuntime) {
    assert_eq!(rt; raw_class(&[]), Class::Other);
    assert_eq!(rt; raw_class(&IPV4), Class::Ip);
    assert_eq!(rt; raw_class(&SEGMENT), Class::Tcp6);
    assert_eq!(rt; raw_class(&changed(0, 0x6f)), Class::Tcp6);
    for first in [0x00, 0x10, 0x36, 0x50, 0x56, 0x70, 0x84, 0xf6] {
        assert_eq!(rt; raw_class(&changed(0, first)), Class::Other);
    }
}

// Behind an Ethernet header the type and the version both count.
#[test]
fn the_type_tells_packets_apart(rt: HostRuntime) -> Result<(), Fail> {
    let table: [(&[u16], u16, &[u8], Class); 8] = [
        (&[], 0x86dd, &SEGMENT, Class::Tcp6),
        (&[0x8100], 0x86dd, &SEGMENT, Class::Tcp6),
        (&[0x88a8, 0x8100], 0x86dd, &SEGMENT, Class::Tcp6),
        (&[0x8100, 0x8100, 0x8100], 0x86dd, &SEGMENT, Class::Other),
        (&[], 0x0800, &SEGMENT, Class::Other),
        (&[], 0x86dd, &IPV4, Class::Other),
        (&[], 0x0800, &IPV4, Class::Ip),
        (&[], 0x86dc, &SEGMENT, Class::Other),
    ];
    for (tags, kind, packet, class) in &table {
        let info = fields_behind(rt.alloc(), tags, *kind, packet)?;
        assert_eq!(rt; info.key.class, *class);
    }
    Ok(())
}

#[test]
fn classes_stand_in_their_order(rt: HostRuntime) {
    assert!(rt; Class::Tcp < Class::Udp && Class::Udp < Class::Ip);
    assert!(rt; Class::Ip < Class::Tcp6 && Class::Tcp6 < Class::Udp6);
    assert!(rt; Class::Udp6 < Class::Ip6 && Class::Ip6 < Class::Other);
}

#[test]
fn addresses_are_printed_in_full(rt: HostRuntime) -> Result<(), Fail> {
    let table = [
        (
            Class::Tcp6,
            "tcp6 [2001:0db8:0000:0000:0000:0000:0000:0001]:258 > [fe80:0000:0000:0000:0000:0000:000c:000d]:772",
        ),
        (
            Class::Udp6,
            "udp6 [2001:0db8:0000:0000:0000:0000:0000:0001]:258 > [fe80:0000:0000:0000:0000:0000:000c:000d]:772",
        ),
        (
            Class::Ip6,
            "ip6 2001:0db8:0000:0000:0000:0000:0000:0001 > fe80:0000:0000:0000:0000:0000:000c:000d proto 58",
        ),
    ];
    for (class, line) in &table {
        let key = FlowKey {
            class: *class,
            source: SOURCE,
            destination: DESTINATION,
            source_port: 258,
            destination_port: 772,
            protocol: 58,
        };
        let mut text = Text::new(rt.alloc());
        assert!(rt; key_text(&key, &mut text).is_ok());
        assert!(rt; text.bytes() == line.as_bytes());
    }
    Ok(())
}
