// How far the reading of a capture has come.
use crate::{ByteOrder, Interface, NgBreak};

/// What a block adds to what is known, once all of it is there and nothing breaks it.
#[derive(Clone, Copy)]
pub enum Adds {
    /// Nothing: it is stepped over.
    Nothing,
    /// A section, whose numbers are in the block's byte order.
    Section,
    /// An interface, whose time resolution the options that are still to come may tell.
    Options {
        link: u16,
        snap: u32,
    },
    /// An interface whose time resolution is known.
    Described(Interface),
    /// A packet, whose captured bytes wait.
    Packet {
        link: u16,
        nanos: u64,
        original: u32,
    },
}

/// A block whose front was read and doesn't break it.
#[derive(Clone, Copy)]
pub struct Block {
    /// The byte order of its numbers.
    pub order: ByteOrder,
    /// Its total length in bytes.
    pub total: u32,
    /// How many of its bytes are still to come, behind those of a waiting packet.
    pub rest: u32,
    pub adds: Adds,
}

/// What is read next.
#[derive(Clone, Copy)]
pub enum Stage {
    /// Bytes that are handed on: the input isn't pcapng.
    Plain,
    /// A block, behind so many last bytes of the block before.
    Between { skip: usize },
    /// What is left of a block.
    Inside(Block),
    /// Nothing: this is the first break.
    Broken(NgBreak),
    /// Nothing: the input ended behind a whole block.
    Ended,
}
