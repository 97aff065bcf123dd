// The constants of the capture file format (draft-ietf-opsawg-pcap, "File Header", "Packet Record").

/// Bytes of the header of a capture.
pub const CAPTURE_HEADER: usize = 24;

/// Bytes of the header of a record.
pub const RECORD_HEADER: usize = 16;

/// The greatest captured length of a record in bytes, the greatest that libpcap writes.
pub const LONGEST: u32 = 262_144;

/// The magic number where a fraction of a second counts microseconds, in the writer's byte order.
pub const MAGIC_MICROS: u32 = 0xa1b2_c3d4;

/// The magic number where a fraction of a second counts nanoseconds, in the writer's byte order.
pub const MAGIC_NANOS: u32 = 0xa1b2_3c4d;

/// The magic number of microseconds with its bytes turned.
pub const MAGIC_MICROS_TURNED: u32 = 0xd4c3_b2a1;

/// The magic number of nanoseconds with its bytes turned.
pub const MAGIC_NANOS_TURNED: u32 = 0x4d3c_b2a1;

/// The major version.
pub const MAJOR: u16 = 2;

/// The minor version.
pub const MINOR: u16 = 4;

/// The link type of Ethernet (LINKTYPE_ETHERNET).
pub const LINK_ETHERNET: u32 = 1;

/// The link type of raw IP: a frame is a packet of IPv4 or IPv6 (LINKTYPE_RAW).
pub const LINK_RAW: u32 = 101;

/// Nanoseconds in a second.
pub const NANOS_PER_SECOND: u64 = 1_000_000_000;

/// Nanoseconds in a microsecond.
pub const NANOS_PER_MICRO: u64 = 1_000;
