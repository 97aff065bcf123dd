ghost use Rattle.std.specs.Prelude.{◌≡◌};
ghost use Rattle.indirection.specs.Tries.{entry_tries, owner_from};
ghost use Rattle.indirection.specs.Story.{entry_at};

use crate::{OrderEntry, RoundEntry};

/// An entry of the journal.
#[derive(Drop)]
pub enum Entry {
    /// A round of balancing, with its proposals and what came of them.
    Round(RoundEntry),
    /// An order from outside, with what came of it.
    Order(OrderEntry),
}

impl Entry {
    /// Its position: it comes behind so many packets.
    pub fn at(&self) -> u32
        ensures { result ≡ entry_at self.now }
    {
        match self {
            Entry::Round(round) => round.at(),
            Entry::Order(entry) => entry.order.at,
        }
    }

    /// Who owns a bucket behind the entry, where a core owned it before.
    pub(crate) fn owner_after(&self, bucket: u16, owner: u8) -> u8
        ensures { result ≡ owner_from bucket owner (entry_tries self.now) }
    {
        match self {
            Entry::Round(round) => round.owner_after(bucket, owner),
            Entry::Order(entry) => entry.owner_after(bucket, owner),
        }
    }
}
