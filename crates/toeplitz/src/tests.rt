// The vectors of the Microsoft RSS definition, which are made with the default key.
use crate::{DEFAULT_KEY, KeyTables, hash, hash_info};
use packet_fields::{Class, FlowKey, PacketInfo};
use std::test::Fail;

struct Vector {
    source: u128,
    source_port: u16,
    destination: u128,
    destination_port: u16,
    // Source, destination, source port and destination port in network byte order.
    input: [u8; 12],
    of_ends: u32,
    of_addresses: u32,
}

const VECTORS: [Vector; 5] = [
    Vector {
        source: 0x4209_95bb,
        source_port: 2794,
        destination: 0xa18e_6450,
        destination_port: 1766,
        input: [66, 9, 149, 187, 161, 142, 100, 80, 0x0a, 0xea, 0x06, 0xe6],
        of_ends: 0x51cc_c178,
        of_addresses: 0x323e_8fc2,
    },
    Vector {
        source: 0xc75c_6f02,
        source_port: 14230,
        destination: 0x4145_8c53,
        destination_port: 4739,
        input: [199, 92, 111, 2, 65, 69, 140, 83, 0x37, 0x96, 0x12, 0x83],
        of_ends: 0xc626_b0ea,
        of_addresses: 0xd718_262a,
    },
    Vector {
        source: 0x1813_c65f,
        source_port: 12898,
        destination: 0x0c16_cfb8,
        destination_port: 38024,
        input: [24, 19, 198, 95, 12, 22, 207, 184, 0x32, 0x62, 0x94, 0x88],
        of_ends: 0x5c2b_394a,
        of_addresses: 0xd2d0_a5de,
    },
    Vector {
        source: 0x261b_cd1e,
        source_port: 48228,
        destination: 0xd18e_a306,
        destination_port: 2217,
        input: [38, 27, 205, 30, 209, 142, 163, 6, 0xbc, 0x64, 0x08, 0xa9],
        of_ends: 0xafc7_327f,
        of_addresses: 0x8298_9176,
    },
    Vector {
        source: 0x9927_a3bf,
        source_port: 44251,
        destination: 0xcabc_7f02,
        destination_port: 1303,
        input: [153, 39, 163, 191, 202, 188, 127, 2, 0xac, 0xdb, 0x05, 0x17],
        of_ends: 0x10e8_28a2,
        of_addresses: 0x5d18_09c5,
    },
];

// Two addresses of IPv6 and two ports, the longest input.
const LONGEST: [u8; 36] = [
    0x3f, 0xfe, 0x25, 0x01, 0x02, 0x00, 0x1f, 0xff, 0, 0, 0, 0, 0, 0, 0, 7, 0x3f, 0xfe, 0x25, 0x01,
    0x02, 0x00, 0x00, 0x03, 0, 0, 0, 0, 0, 0, 0, 1, 0x0a, 0xea, 0x06, 0xe6,
];

// A packet with the ends of a vector.
fn packet_of(class: Class, vector: &Vector) -> PacketInfo {
    PacketInfo {
        key: FlowKey {
            class,
            source: vector.source,
            destination: vector.destination,
            source_port: vector.source_port,
            destination_port: vector.destination_port,
            protocol: 0,
        },
        nanos: 0,
        original: 0,
        flags: 0,
    }
}

#[test]
fn published_inputs_have_their_hashes(rt: HostRuntime) {
    for vector in &VECTORS {
        assert_eq!(rt; hash(&DEFAULT_KEY, &vector.input), vector.of_ends);
        assert_eq!(rt; hash(&DEFAULT_KEY, &vector.input[..8]), vector.of_addresses);
    }
}

#[test]
fn the_longest_input_has_its_hash(rt: HostRuntime) {
    assert_eq!(rt; hash(&DEFAULT_KEY, &LONGEST), 0x4020_7d3d);
    assert_eq!(rt; hash(&DEFAULT_KEY, &LONGEST[..32]), 0x2cc1_8cd5);
}

// The packet of the longest input.
fn packet_over_ipv6(class: Class) -> PacketInfo {
    PacketInfo {
        key: FlowKey {
            class,
            source: 0x3ffe_2501_0200_1fff_0000_0000_0000_0007,
            destination: 0x3ffe_2501_0200_0003_0000_0000_0000_0001,
            source_port: 2794,
            destination_port: 1766,
            protocol: 0,
        },
        nanos: 0,
        original: 0,
        flags: 0,
    }
}

#[test]
fn published_packets_over_ipv6_have_their_hashes(rt: HostRuntime) {
    for (class, expected) in [
        (Class::Tcp6, 0x4020_7d3d),
        (Class::Udp6, 0x4020_7d3d),
        (Class::Ip6, 0x2cc1_8cd5),
        (Class::Other, 0),
    ] {
        assert_eq!(rt; hash_info(&DEFAULT_KEY, &packet_over_ipv6(class)), expected);
    }
}

#[test]
fn published_packets_with_ports_have_their_hashes(rt: HostRuntime) {
    for vector in &VECTORS {
        let tcp = packet_of(Class::Tcp, vector);
        let udp = packet_of(Class::Udp, vector);
        assert_eq!(rt; hash_info(&DEFAULT_KEY, &tcp), vector.of_ends);
        assert_eq!(rt; hash_info(&DEFAULT_KEY, &udp), vector.of_ends);
    }
}

#[test]
fn published_packets_without_ports_have_their_hashes(rt: HostRuntime) {
    for vector in &VECTORS {
        let ip = packet_of(Class::Ip, vector);
        let other = packet_of(Class::Other, vector);
        assert_eq!(rt; hash_info(&DEFAULT_KEY, &ip), vector.of_addresses);
        assert_eq!(rt; hash_info(&DEFAULT_KEY, &other), 0);
    }
}

#[test]
fn tables_have_the_same_hashes(rt: HostRuntime) -> Result<(), Fail> {
    let tables = KeyTables::new(rt.alloc(), &DEFAULT_KEY)?;
    for vector in &VECTORS {
        assert_eq!(rt; tables.hash(&vector.input), vector.of_ends);
        assert_eq!(rt; tables.hash(&vector.input[..8]), vector.of_addresses);
        let tcp = packet_of(Class::Tcp, vector);
        let ip = packet_of(Class::Ip, vector);
        assert_eq!(rt; tables.hash_info(&tcp), vector.of_ends);
        assert_eq!(rt; tables.hash_info(&ip), vector.of_addresses);
    }
    Ok(())
}

#[test]
fn tables_have_the_same_hashes_over_ipv6(rt: HostRuntime) -> Result<(), Fail> {
    let tables = KeyTables::new(rt.alloc(), &DEFAULT_KEY)?;
    assert_eq!(rt; tables.hash(&LONGEST), 0x4020_7d3d);
    assert_eq!(rt; tables.hash(&LONGEST[..32]), 0x2cc1_8cd5);
    assert_eq!(rt;
        tables.hash_info(&packet_over_ipv6(Class::Udp6)),
        0x4020_7d3d
    );
    assert_eq!(rt;
        tables.hash_info(&packet_over_ipv6(Class::Ip6)),
        0x2cc1_8cd5
    );
    assert_eq!(rt; tables.hash_info(&packet_over_ipv6(Class::Other)), 0);
    Ok(())
}
