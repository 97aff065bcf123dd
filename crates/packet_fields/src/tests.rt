mod ipv6;

use crate::{Class, PacketInfo, fields};
use rss_base::Link;
use std::alloc::Global;
use std::test::Fail;

// A TCP segment of 40 bytes from 10.0.0.1:258 to 10.0.0.2:772 without options, its flags 12.
const SEGMENT: [u8; 40] = [
    0x45, 0, 0, 40, 0, 1, 0, 0, 64, 6, 0, 0, 10, 0, 0, 1, 10, 0, 0, 2, // IPv4
    1, 2, 3, 4, 0, 0, 0, 0, 0, 0, 0, 0, 0x50, 0x12, 0, 0, 0, 0, 0, 0, // TCP
];

// The segment with another byte at a place.
fn changed(at: usize, value: u8) -> [u8; 40] {
    let mut packet = SEGMENT;
    if let Some(byte) = packet.get_mut(at) {
        *byte = value;
    }
    packet
}

// The fields of a packet in a frame, behind tags of these types.
fn fields_behind(alloc: Global, tags: &[u16], packet: &[u8]) -> Result<PacketInfo, Fail> {
    let mut frame = [0u8; 12].to_vec(alloc)?;
    for tag in tags {
        frame.extend_from_slice(&tag.to_be_bytes())?;
        frame.extend_from_slice(&[0, 7])?;
    }
    frame.extend_from_slice(&[0x08, 0x00])?;
    frame.extend_from_slice(packet)?;
    Ok(fields(Link::Ethernet, &frame, 5, 60))
}

#[test]
fn at_most_two_tags_are_stepped_over(rt: HostRuntime) -> Result<(), Fail> {
    let table: [(&[u16], Class); 5] = [
        (&[], Class::Tcp),
        (&[0x8100], Class::Tcp),
        (&[0x88a8, 0x8100], Class::Tcp),
        (&[0x8100, 0x8100, 0x8100], Class::Other),
        (&[0x9100], Class::Other),
    ];
    for (tags, class) in &table {
        let info = fields_behind(rt.alloc(), tags, &SEGMENT)?;
        assert!(rt; info.key.class == *class);
        assert_eq!(rt; (info.nanos, info.original), (5, 60));
    }
    Ok(())
}

// A frame that ends inside its header, behind it, or behind a tag, and one of another type.
#[test]
fn short_frames_are_other(rt: HostRuntime) {
    let frames: [&[u8]; 5] = [
        &[],
        &[0; 13],
        &[0, 0, 0, 0, 0, 0, 0, 0, 0, 0, 0, 0, 8, 0],
        &[0, 0, 0, 0, 0, 0, 0, 0, 0, 0, 0, 0, 0x81, 0, 0, 7, 8],
        &[0, 0, 0, 0, 0, 0, 0, 0, 0, 0, 0, 0, 8, 6, 0x45],
    ];
    for frame in &frames {
        assert!(rt; fields(Link::Ethernet, frame, 0, 0).key.class == Class::Other);
    }
}

#[test]
fn a_header_is_whole_and_of_version_4(rt: HostRuntime) -> Result<(), Fail> {
    for (first, captured, class) in [
        (0x45, 40, Class::Tcp),
        (0x55, 40, Class::Other),
        (0x44, 40, Class::Other),
        (0x46, 40, Class::Ip),
        (0x4b, 40, Class::Other),
        (0x45, 20, Class::Ip),
        (0x45, 19, Class::Other),
    ] {
        let packet = changed(0, first);
        let info = fields_behind(rt.alloc(), &[], &packet[..captured])?;
        assert!(rt; info.key.class == class);
    }
    Ok(())
}

// Total lengths, and the fragment field: the bit 40 says that the packet may not be cut.
#[test]
fn a_segment_is_whole(rt: HostRuntime) -> Result<(), Fail> {
    for (at, value, class) in [
        (3, 39, Class::Ip),
        (3, 41, Class::Tcp),
        (3, 19, Class::Tcp),
        (3, 0, Class::Tcp),
        (6, 0x20, Class::Ip),
        (6, 0x10, Class::Ip),
        (7, 1, Class::Ip),
        (6, 0x40, Class::Tcp),
        (9, 17, Class::Udp),
        (9, 1, Class::Ip),
    ] {
        let info = fields_behind(rt.alloc(), &[], &changed(at, value))?;
        assert!(rt; info.key.class == class);
    }
    Ok(())
}

#[test]
fn classes_have_smallest_lengths(rt: HostRuntime) -> Result<(), Fail> {
    for (protocol, captured, class) in [
        (6, 40, Class::Tcp),
        (6, 39, Class::Ip),
        (17, 28, Class::Udp),
        (17, 27, Class::Ip),
    ] {
        let packet = changed(9, protocol);
        let info = fields_behind(rt.alloc(), &[], &packet[..captured])?;
        assert!(rt; info.key.class == class);
        assert_eq!(rt; info.key.protocol, protocol);
    }
    Ok(())
}

#[test]
fn fields_stand_where_they_do(rt: HostRuntime) -> Result<(), Fail> {
    let tcp = fields_behind(rt.alloc(), &[], &SEGMENT)?;
    assert_eq!(rt;
        (tcp.key.source, tcp.key.destination),
        (0x0a00_0001, 0x0a00_0002)
    );
    assert_eq!(rt; (tcp.key.source_port, tcp.key.destination_port), (258, 772));
    assert_eq!(rt; tcp.flags, 0x12);
    let ip = fields_behind(rt.alloc(), &[], &changed(9, 1))?;
    assert_eq!(rt; (ip.key.source_port, ip.key.destination_port), (0, 0));
    assert_eq!(rt; ip.flags, 0);
    Ok(())
}
