ghost use Rattle.std.specs.Prelude.{◌≡◌, if◌then◌else◌, ◌==◌};
ghost use Rattle.indirection.specs.Tries.{owner_by};

use crate::{MoveOrder, Outcome};

/// An order, and what came of it.
#[derive(Clone, Copy, Debug, PartialEq, Eq)]
pub struct OrderEntry {
    pub order: MoveOrder,
    pub outcome: Outcome,
}

impl OrderEntry {
    /// Who owns a bucket behind the order, where a core owned it before.
    pub(crate) fn owner_after(&self, bucket: u16, owner: u8) -> u8
        ensures { result ≡ (if self.now.order.bucket == bucket then owner_by owner self.now.order.to self.now.outcome else owner) }
    {
        if self.order.bucket == bucket {
            self.outcome.owner(owner, self.order.to)
        } else {
            owner
        }
    }
}
