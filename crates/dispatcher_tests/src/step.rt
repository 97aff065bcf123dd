use dispatch_loop::DispatcherTurn;
use handover_core::{Item, Kind};

/// One step at a dispatcher or its ends, with what is to come of it.
#[derive(Clone, Copy)]
pub(crate) enum Step {
    /// A turn of the dispatcher answers so.
    Turn(DispatcherTurn),
    /// A worker takes this item from the lane of its core, and its cell goes back to the pool.
    Take { core: u8, item: Item },
    /// The lane of a core is empty.
    Nothing { core: u8 },
    /// A worker claims the table of a bucket.
    Claim { bucket: u16, place: u32 },
    /// A worker puts the table that was claimed last back, with so many packets done.
    Release { done: u32 },
    /// A worker notes how many packets it has worked.
    Note { core: u8, worked: u64 },
}

impl Step {
    /// A worker takes a cell of a bucket.
    pub(crate) fn took(core: u8, kind: Kind, bucket: u16, place: u32) -> Step {
        Step::Take {
            core,
            item: Item::Of {
                kind,
                bucket,
                place,
            },
        }
    }

    /// A worker takes an End.
    pub(crate) fn took_end(core: u8) -> Step {
        Step::Take {
            core,
            item: Item::End,
        }
    }
}
