// The constants of the pcapng format (draft-ietf-opsawg-pcapng), and those of the classic capture
// that is made of it (draft-ietf-opsawg-pcap).

/// The block type of a Section Header Block, which reads alike in both byte orders.
pub const SECTION_HEADER: u32 = 0x0a0d_0d0a;

/// The block type of an Interface Description Block.
pub const INTERFACE_DESCRIPTION: u32 = 1;

/// The block type of a Simple Packet Block.
pub const SIMPLE_PACKET: u32 = 3;

/// The block type of an Enhanced Packet Block.
pub const ENHANCED_PACKET: u32 = 6;

/// The byte-order magic of a section header.
pub const BYTE_ORDER_MAGIC: u32 = 0x1a2b_3c4d;

/// The major version of a section.
pub const MAJOR: u16 = 1;

/// The bytes at a block's front in which all fixed fields lie.
pub const FRONT: usize = 28;

/// Bytes behind a block's body: the total length again.
pub const TRAILER: u32 = 4;

/// The code of the option that ends the options (opt_endofopt).
pub const END_OF_OPTIONS: u16 = 0;

/// The code of the option that tells an interface's time resolution (if_tsresol).
pub const TIME_RESOLUTION: u16 = 9;

/// The time resolution of an interface that tells none: microseconds.
pub const MICROSECONDS: u8 = 6;

/// A time resolution from here on is a power of two.
pub const POWERS_OF_TWO: u8 = 128;

/// The most interfaces of a section.
pub const MOST_INTERFACES: usize = 256;

/// The number that no block can have.
pub const LAST_BLOCK: u32 = 4_294_967_295;

/// The greatest captured length of a record in bytes.
pub const LONGEST: u32 = 262_144;

/// The link of Ethernet frames (LINKTYPE_ETHERNET).
pub const LINK_ETHERNET: u16 = 1;

/// The link of raw IP packets (LINKTYPE_RAW).
pub const LINK_RAW: u16 = 101;

/// Nanoseconds in a second.
pub const NANOS_PER_SECOND: u64 = 1_000_000_000;

/// Nanoseconds in a microsecond.
pub const NANOS_PER_MICRO: u64 = 1_000;

/// The greatest time that a record of a classic capture can tell, in nanoseconds.
pub const LATEST: u64 = 4_294_967_295_999_999_999;

/// The magic number of a classic capture whose fractions count nanoseconds.
pub const MAGIC_NANOS: u32 = 0xa1b2_3c4d;
