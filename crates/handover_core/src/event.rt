/// An atomic step of the machine: a push or a pop on one receive queue, a look at one passage word,
/// an exchange or a store of one passage word with its table, or a change of an entry before anything
/// of its bucket was sent.
#[derive(Clone, Copy, Debug, PartialEq, Eq)]
pub enum Event {
    /// The dispatcher sends the next packet to the core that owns its bucket.
    Send,
    /// The dispatcher looks at a bucket's passage word.
    Look {
        /// The bucket.
        bucket: u16,
    },
    /// The dispatcher gives a bucket to another core, and a mark to the core that had it.
    Move {
        /// The bucket.
        bucket: u16,
        /// The core that gets it.
        to: u8,
    },
    /// The dispatcher gives a bucket, of which nothing was sent, to another core.
    Place {
        /// The bucket.
        bucket: u16,
        /// The core that gets it.
        to: u8,
    },
    /// The dispatcher sends End to a core.
    SendEnd {
        /// The core.
        core: u8,
    },
    /// A core takes the front item of its queue.
    Take {
        /// The core.
        core: u8,
    },
    /// A core claims the table of a bucket that waits there, and works the packets that wait.
    Claim {
        /// The core.
        core: u8,
        /// The bucket.
        bucket: u16,
    },
    /// A core puts the table of a bucket on the shelf.
    Release {
        /// The core.
        core: u8,
        /// The bucket.
        bucket: u16,
    },
}
