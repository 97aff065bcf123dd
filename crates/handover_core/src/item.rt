/// What an item of a bucket is.
#[derive(Clone, Copy, Debug, PartialEq, Eq)]
pub enum Kind {
    /// The first packet of a stint.
    First,
    /// A later packet of a stint.
    Next,
    /// The end of a stint: no packet of it follows on this queue.
    Mark,
}

/// What stands on a receive queue.
#[derive(Clone, Copy, Debug, PartialEq, Eq)]
pub enum Item {
    /// A packet of a bucket, or the mark behind a stint's packets.
    Of {
        /// What the item is.
        kind: Kind,
        /// The bucket.
        bucket: u16,
        /// The packet's place among its bucket's packets, from 0; for a mark, how many packets of
        /// the bucket came before it.
        place: u32,
    },
    /// Nothing follows for this core.
    End,
}
