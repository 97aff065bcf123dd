// The constants of generated traffic.

/// The most records of a capture that is made.
pub const MOST_RECORDS: u32 = 10_000_000;

/// The file header: little-endian with microseconds, version 2.4, a snap length of 262,144 and
/// Ethernet (libpcap's capture file format).
pub const FILE_HEADER: [u8; 24] = [
    0xd4, 0xc3, 0xb2, 0xa1, 2, 0, 4, 0, 0, 0, 0, 0, 0, 0, 0, 0, 0, 0, 4, 0, 1, 0, 0, 0,
];

/// The Ethernet header: two addresses of local use, and the type of IPv4 (RFC 894).
pub const ETHERNET: [u8; 14] = [2, 0, 0, 0, 0, 1, 2, 0, 0, 0, 0, 2, 8, 0];

/// Bytes of the Ethernet header.
pub const ETHERNET_LENGTH: u32 = 14;

/// Bytes of the Ethernet and the IPv4 header.
pub const BEFORE_PORTS: u32 = 34;

/// Captured bytes of a TCP packet: its headers.
pub const TCP_CAPTURED: u32 = 54;

/// Captured bytes of a UDP packet: its headers.
pub const UDP_CAPTURED: u32 = 42;

/// The first byte of an IPv4 header of five words (RFC 791, section 3.1).
pub const VERSION_AND_LENGTH: u8 = 0x45;

/// The time to live (RFC 791, section 3.1).
pub const TIME_TO_LIVE: u8 = 0x40;

/// The address of flow 0, 10.0.0.0. The other flows follow it.
pub const FIRST_SOURCE: u32 = 0x0a00_0000;

/// The address that all packets go to, 192.168.0.1.
pub const DESTINATION: u32 = 0xc0a8_0001;

/// The source port of flow 0. The other flows follow it.
pub const FIRST_PORT: u16 = 1024;

/// The port that TCP packets go to.
pub const TCP_DESTINATION: u16 = 80;

/// The port that UDP packets go to.
pub const UDP_DESTINATION: u16 = 53;

/// The byte of a TCP header of five words that tells its length (RFC 9293, section 3.1).
pub const DATA_OFFSET: u8 = 0x50;

/// The whole window of a TCP header (RFC 9293, section 3.1).
pub const WINDOW: u16 = 0xffff;

/// The control bit that opens a connection (RFC 9293, section 3.1).
pub const SYN: u8 = 0x02;

/// The control bit of an acknowledgement (RFC 9293, section 3.1).
pub const ACK: u8 = 0x10;

/// The control bits of an acknowledgement with which a side ends (RFC 9293, section 3.1).
pub const FIN_ACK: u8 = 0x11;

/// The length on the wire of the shortest frame, in bytes.
pub const SHORTEST: u32 = 60;

/// How much longer the next frame is, in bytes.
pub const LONGER_BY: u32 = 10;

/// How many frames there are until the shortest comes again.
pub const LENGTHS: u32 = 8;

/// How many packets there are until the control bits come again.
pub const FLAGS_PERIOD: u32 = 16;

/// How many packets come in a second.
pub const PACKETS_PER_SECOND: u32 = 1000;

/// The microseconds between two packets.
pub const MICROSECONDS_APART: u32 = 1000;

/// The nanoseconds between two packets.
pub const NANOSECONDS_APART: u64 = 1_000_000;
