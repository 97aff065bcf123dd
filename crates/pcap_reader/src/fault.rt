/// What is wrong with a capture: the first thing that breaks its format.
#[derive(Clone, Copy, Debug, PartialEq, Eq)]
pub enum Break {
    /// The input ends after so many bytes, fewer than a header has.
    ShortHeader { have: u32 },
    /// The first four bytes are no magic number. They are told as a big-endian number.
    BadMagic { value: u32 },
    /// The version isn't 2.4.
    BadVersion { major: u16, minor: u16 },
    /// The link type is neither Ethernet nor raw IP.
    BadLink { value: u32 },
    /// The record with this number, from 0, tells a captured length above the limit.
    TooLong { at: u32, length: u32 },
    /// The input ends inside the record with this number, from 0, after so many bytes of it, its
    /// header counted.
    ShortRecord { at: u32, have: u32 },
}

/// Why no record was given.
#[derive(Clone, Copy, Debug, PartialEq, Eq)]
pub enum ReadError {
    /// Memory for the buffer was refused. Only [`start`](crate::Reader::start) answers this.
    NoMemory,
    /// The source failed to read.
    ReadFault,
    /// The capture is broken.
    Broken(Break),
}
