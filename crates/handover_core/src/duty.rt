ghost use Rattle.std.specs.Prelude.{◌≡◌, ◌<◌};
ghost use Rattle.handover_core.specs.Machine.{met, freed, leave};
ghost use Rattle.handover_core.specs.Cores.{hand_of_duty, CanMeet};

use crate::Kind;

/// What a core does with a bucket.
#[derive(Clone, Copy)]
pub enum Duty {
    /// Nothing.
    Nothing,
    /// It has parked the packets of so many places from the first on, until it can claim the table.
    Parks {
        /// The place of the first packet that waits.
        first: u32,
        /// How many packets wait.
        count: u32,
    },
    /// It holds the table.
    Holds {
        /// The place at which it claimed it.
        start: u32,
        /// How many of the bucket's packets were worked.
        done: u32,
    },
    /// It is to put the table back on the shelf.
    Leaves {
        /// The place at which it claimed it.
        start: u32,
        /// How many of the bucket's packets were worked.
        done: u32,
    },
}

impl Duty {
    /// What becomes of the duty with an item of this kind and place.
    pub(crate) fn met(self, kind: Kind, place: u32) -> Duty
        requires { CanMeet self kind place }
        ensures { hand_of_duty result ≡ met (hand_of_duty self) kind place }
    {
        match (self, kind) {
            (Duty::Nothing, Kind::First) => Duty::Parks {
                first: place,
                count: 1,
            },
            (Duty::Parks { first, count }, Kind::Next) => Duty::Parks {
                first,
                count: count + 1,
            },
            (Duty::Holds { start, done }, Kind::Next) => Duty::Holds {
                start,
                done: done + 1,
            },
            (Duty::Holds { start, done }, Kind::Mark) => Duty::Leaves { start, done },
            (other, _) => other,
        }
    }

    /// How many cells are free after it: one, unless the packet is parked.
    pub(crate) fn freed(self, kind: Kind) -> u32
        ensures { result ≡ freed (hand_of_duty self) kind }
    {
        match (self, kind) {
            (Duty::Nothing, Kind::First) => 0,
            (Duty::Parks { .. }, Kind::Next) => 0,
            (_, _) => 1,
        }
    }

    /// What becomes of the duty when no more packets come.
    pub(crate) fn left(self) -> Duty
        ensures { hand_of_duty result ≡ leave (hand_of_duty self) }
    {
        match self {
            Duty::Holds { start, done } => Duty::Leaves { start, done },
            other => other,
        }
    }
}
