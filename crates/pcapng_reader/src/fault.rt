/// In which way a block breaks its capture.
#[derive(Clone, Copy, Debug, PartialEq, Eq)]
pub enum NgKind {
    /// The input ends inside the block. The value is how many bytes of it are there.
    Short,
    /// The byte-order magic of a section header is none. The value is its bytes as a big-endian number.
    Order,
    /// The total length can't be: it is no multiple of four, below the least of its kind of block, or
    /// leaves no room for a record's bytes. The value is the total length.
    Length,
    /// The major version of a section isn't 1. The value is that version.
    Version,
    /// A record names an interface that its section doesn't have. The value is its number, from 0.
    Interface,
    /// The link of a record is neither Ethernet nor raw IP, or isn't that of the first record. The
    /// value is that link.
    Link,
    /// A record tells more captured bytes than the limit. The value is how many.
    Long,
    /// The total length at the end of a block isn't the one at its front. The value is that at the end.
    Tail,
    /// A section has more interfaces than the limit. The value is the limit.
    Interfaces,
    /// The input has more blocks than can be numbered. The value is 0.
    Blocks,
}

/// The first thing that breaks the format.
#[derive(Clone, Copy, Debug, PartialEq, Eq)]
pub struct NgBreak {
    /// The number of its block, from 0.
    pub block: u32,
    pub kind: NgKind,
    /// The number that goes with the kind.
    pub value: u32,
}

/// Why no source was made.
#[derive(Clone, Copy, Debug, PartialEq, Eq)]
pub enum NgError {
    /// Memory was refused.
    NoMemory,
    /// The source failed to read.
    ReadFault,
}
