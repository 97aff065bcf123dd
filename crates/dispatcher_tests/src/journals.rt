// Journals of moves that were ordered, by what the shelf was seen to hold.
ghost use Rattle.std.specs.Prelude.{◌≡◌, ◌≤◌, IfOk};
ghost use Rattle.dispatch_loop.specs.Accepted.{IsAccepted};

use crate::capture::{EVEN, capture};
use crate::rig::Rig;
use crate::step::Step;
use crate::step::Step::{Claim, Release, Turn};
use balancer::PolicyName;
use dispatch_loop::DispatcherTurn::{EndSent, Finished, Ordered, Sent};
use dispatch_loop::{DispatcherEnd, Options};
use flow_work::WorkName;
use indirection::{Entry, Journal, MoveOrder, Outcome, Table};
use packet_pool::Kind::{First, Mark, Next};
use std::alloc::Global;
use std::test::Fail;
use toeplitz::DEFAULT_KEY;

/// Whether an entry is an order with what came of it.
pub(crate) fn is_order(entry: &Entry, order: MoveOrder, outcome: Outcome) -> bool {
    match entry {
        Entry::Round(_) => false,
        Entry::Order(entry) => entry.order == order && entry.outcome == outcome,
    }
}

/// Whether the entries of a journal are these orders, with what came of them.
pub(crate) fn has_orders(journal: &Journal, orders: &[(MoveOrder, Outcome)]) -> bool {
    let entries = journal.entries();
    if entries.len() != orders.len() {
        return false;
    }
    for (entry, (order, outcome)) in entries.iter().zip(orders.iter()) {
        if !is_order(entry, *order, *outcome) {
            return false;
        }
    }
    true
}

// The only bucket goes to core 1 behind two packets, and back behind five, or behind four.
const THERE: MoveOrder = MoveOrder {
    at: 2,
    bucket: 0,
    to: 1,
};

const BACK: MoveOrder = MoveOrder {
    at: 5,
    bucket: 0,
    to: 0,
};

const EARLY_BACK: MoveOrder = MoveOrder {
    at: 4,
    bucket: 0,
    to: 0,
};

// Two cores and one bucket, which goes there behind two packets and back behind so many.
fn handovers(alloc: Global, back: MoveOrder) -> Result<Options, Fail>
    requires at { back.at ≤ 6 }
    requires later { 2 ≤ back.at }
    requires bucket { back.bucket ≡ 0 }
    requires to { back.to ≡ 0 }
    ensures accepted { IfOk result IsAccepted }
    ensures cores { IfOk result (λ o. o.cores ≡ 2) }
{
    let start = Table::new(alloc, 2, 1)?;
    Ok(Options {
        key: DEFAULT_KEY,
        cores: 2,
        start,
        work: WorkName::Count,
        moves: vec![in alloc; THERE, back]?,
        round: 1_000,
        limit: 4,
        policy: PolicyName::Greedy,
        pool: 16,
        packets: 6,
    })
}

#[test]
fn a_bucket_is_handed_over_and_back(rt: HostRuntime) -> Result<(), Fail> {
    let alloc = rt.alloc();
    let bytes = capture(alloc, &[&EVEN, &EVEN, &EVEN, &EVEN, &EVEN, &EVEN])?;
    let options = handovers(alloc, BACK)?;
    let mut rig = Rig::new(alloc, &options, bytes, Vec::new(alloc), 8)?;
    let steps = [
        Turn(Sent),
        Turn(Sent),
        Claim {
            bucket: 0,
            place: 0,
        },
        Turn(Ordered),
        Turn(Sent),
        Turn(Sent),
        Turn(Sent),
        Release { done: 2 },
        Claim {
            bucket: 0,
            place: 2,
        },
        Turn(Ordered),
        Turn(Sent),
        Turn(EndSent),
        Turn(EndSent),
        Turn(Finished(DispatcherEnd::AtEnd)),
        Step::took(0, First, 0, 0),
        Step::took(0, Next, 0, 1),
        Step::took(0, Mark, 0, 2),
        Step::took(0, First, 0, 5),
        Step::took_end(0),
        Step::took(1, First, 0, 2),
        Step::took(1, Next, 0, 3),
        Step::took(1, Next, 0, 4),
        Step::took(1, Mark, 0, 5),
        Step::took_end(1),
    ];
    assert_eq!(rt; rig.differs_at(&steps), None);
    let orders = [
        (THERE, Outcome::Moved { tail: 2 }),
        (BACK, Outcome::Moved { tail: 5 }),
    ];
    assert!(rt; has_orders(rig.journal(), &orders));
    Ok(())
}

#[test]
fn a_table_on_its_way_stays(rt: HostRuntime) -> Result<(), Fail> {
    let alloc = rt.alloc();
    let bytes = capture(alloc, &[&EVEN, &EVEN, &EVEN, &EVEN, &EVEN, &EVEN])?;
    let options = handovers(alloc, EARLY_BACK)?;
    let mut rig = Rig::new(alloc, &options, bytes, Vec::new(alloc), 8)?;
    let steps = [
        Turn(Sent),
        Turn(Sent),
        Claim {
            bucket: 0,
            place: 0,
        },
        Turn(Ordered),
        Turn(Sent),
        Turn(Sent),
        Release { done: 2 },
        Turn(Ordered), // behind the release, and before the next claim
        Turn(Sent),
        Turn(Sent),
        Turn(EndSent),
        Turn(EndSent),
        Turn(Finished(DispatcherEnd::AtEnd)),
    ];
    assert_eq!(rt; rig.differs_at(&steps), None);
    let passage = Outcome::InPassage {
        tail: 2,
        sent: 4,
        word: Some(5),
    };
    let orders = [(THERE, Outcome::Moved { tail: 2 }), (EARLY_BACK, passage)];
    assert!(rt; has_orders(rig.journal(), &orders));
    Ok(())
}

// Orders that find a bucket without packets, one of the core already, one whose table is held, and
// one whose stint has no packet.
const PLACING: MoveOrder = MoveOrder {
    at: 0,
    bucket: 1,
    to: 1,
};

const STAYING: MoveOrder = MoveOrder {
    at: 1,
    bucket: 0,
    to: 0,
};

const RETURNING: MoveOrder = MoveOrder {
    at: 2,
    bucket: 0,
    to: 0,
};

// Two cores and two buckets of core 0, with these orders.
fn orders_of_each_kind(alloc: Global) -> Result<Options, Fail>
    ensures accepted { IfOk result IsAccepted }
    ensures cores { IfOk result (λ o. o.cores ≡ 2) }
{
    let start = Table::of_list(alloc, 2, 2, &[0, 0])?;
    Ok(Options {
        key: DEFAULT_KEY,
        cores: 2,
        start,
        work: WorkName::Count,
        moves: vec![in alloc; PLACING, STAYING, THERE, RETURNING]?,
        round: 1_000,
        limit: 4,
        policy: PolicyName::Greedy,
        pool: 8,
        packets: 3,
    })
}

#[test]
fn each_order_has_its_outcome(rt: HostRuntime) -> Result<(), Fail> {
    let alloc = rt.alloc();
    let bytes = capture(alloc, &[&EVEN, &EVEN, &EVEN])?;
    let options = orders_of_each_kind(alloc)?;
    let mut rig = Rig::new(alloc, &options, bytes, Vec::new(alloc), 8)?;
    let steps = [
        Turn(Ordered),
        Turn(Sent),
        Turn(Ordered),
        Turn(Sent),
        Claim {
            bucket: 0,
            place: 0,
        },
        Turn(Ordered),
        Turn(Ordered),
        Turn(Sent),
        Turn(EndSent),
        Turn(EndSent),
        Turn(Finished(DispatcherEnd::AtEnd)),
    ];
    assert_eq!(rt; rig.differs_at(&steps), None);
    let passage = Outcome::InPassage {
        tail: 2,
        sent: 2,
        word: None,
    };
    let orders = [
        (PLACING, Outcome::Placed),
        (STAYING, Outcome::Same),
        (THERE, Outcome::Moved { tail: 2 }),
        (RETURNING, passage),
    ];
    assert!(rt; has_orders(rig.journal(), &orders));
    Ok(())
}
