// Pools without a cell, and lanes that are full.
ghost use Rattle.std.specs.Prelude.{◌≡◌, ◌≤◌, IfOk};
ghost use Rattle.dispatch_loop.specs.Accepted.{IsAccepted};
ghost use Rattle.dispatch_loop.specs.declared.limits.TheConstants.{LEAST_POOL, MOST_POOL};

use crate::capture::{EVEN, capture};
use crate::journals::has_orders;
use crate::rig::Rig;
use crate::step::Step;
use crate::step::Step::{Claim, Turn};
use balancer::PolicyName;
use dispatch_loop::DispatcherTurn::{EndSent, Finished, LaneFull, NoCell, Ordered, Sent};
use dispatch_loop::{DispatcherEnd, Options};
use flow_work::WorkName;
use indirection::{MoveOrder, Outcome, Table};
use packet_pool::Kind::{First, Mark, Next};
use std::alloc::Global;
use std::test::Fail;
use toeplitz::DEFAULT_KEY;

// The only bucket goes from core 0 to core 1 behind two packets.
const THERE: MoveOrder = MoveOrder {
    at: 2,
    bucket: 0,
    to: 1,
};

// Two cores, one bucket, and three packets at most.
fn options(alloc: Global, pool: u32) -> Result<Options, Fail>
    requires least { LEAST_POOL ≤ pool }
    requires most { pool ≤ MOST_POOL }
    ensures accepted { IfOk result IsAccepted }
    ensures cores { IfOk result (λ o. o.cores ≡ 2) }
{
    let start = Table::new(alloc, 2, 1)?;
    Ok(Options {
        key: DEFAULT_KEY,
        cores: 2,
        start,
        work: WorkName::Count,
        moves: vec![in alloc; THERE]?,
        round: 1_000,
        limit: 4,
        policy: PolicyName::Greedy,
        pool,
        packets: 3,
    })
}

#[test]
fn what_lacks_a_cell_is_tried_again(rt: HostRuntime) -> Result<(), Fail> {
    let alloc = rt.alloc();
    let bytes = capture(alloc, &[&EVEN, &EVEN, &EVEN])?;
    let mut rig = Rig::new(alloc, &options(alloc, 2)?, bytes, Vec::new(alloc), 4)?;
    let steps = [
        Turn(Sent),
        Turn(Sent),
        Claim {
            bucket: 0,
            place: 0,
        },
        Turn(NoCell), // for the mark
        Turn(NoCell),
        Step::took(0, First, 0, 0),
        Turn(Ordered),
        Turn(NoCell), // for the third packet
        Turn(NoCell),
        Step::took(0, Next, 0, 1),
        Turn(Sent),
        Turn(EndSent),
        Turn(EndSent),
        Turn(Finished(DispatcherEnd::AtEnd)),
        Step::took(0, Mark, 0, 2),
        Step::took_end(0),
        Step::took(1, First, 0, 2),
        Step::took_end(1),
    ];
    assert_eq!(rt; rig.differs_at(&steps), None);
    assert!(rt; has_orders(rig.journal(), &[(THERE, Outcome::Moved { tail: 2 })]));
    Ok(())
}

#[test]
fn a_packet_that_meets_a_full_lane_is_kept(rt: HostRuntime) -> Result<(), Fail> {
    let alloc = rt.alloc();
    let bytes = capture(alloc, &[&EVEN, &EVEN, &EVEN])?;
    let mut rig = Rig::new(alloc, &options(alloc, 3)?, bytes, Vec::new(alloc), 2)?;
    let steps = [
        Turn(Sent),
        Turn(Sent),
        Turn(Ordered), // nobody has claimed the table, so the bucket stays
        Turn(LaneFull { core: 0 }),
        Turn(LaneFull { core: 0 }),
        Step::took(0, First, 0, 0),
        Turn(Sent),
        Step::took(0, Next, 0, 1),
        Turn(EndSent),
        Turn(EndSent),
        Turn(Finished(DispatcherEnd::AtEnd)),
        Step::took(0, Next, 0, 2),
        Step::took_end(0),
        Step::took_end(1),
    ];
    assert_eq!(rt; rig.differs_at(&steps), None);
    let unclaimed = Outcome::InPassage {
        tail: 0,
        sent: 2,
        word: Some(1),
    };
    assert!(rt; has_orders(rig.journal(), &[(THERE, unclaimed)]));
    Ok(())
}

#[test]
fn what_meets_a_full_lane_is_tried_again(rt: HostRuntime) -> Result<(), Fail> {
    let alloc = rt.alloc();
    let bytes = capture(alloc, &[&EVEN, &EVEN, &EVEN])?;
    let mut rig = Rig::new(alloc, &options(alloc, 3)?, bytes, Vec::new(alloc), 2)?;
    let steps = [
        Turn(Sent),
        Turn(Sent),
        Claim {
            bucket: 0,
            place: 0,
        },
        Turn(LaneFull { core: 0 }), // for the mark, whose cell is kept
        Turn(LaneFull { core: 0 }),
        Step::took(0, First, 0, 0),
        Turn(Ordered),
        Turn(Sent),
        Turn(LaneFull { core: 0 }), // for the end
        Turn(LaneFull { core: 0 }),
        Step::took(0, Next, 0, 1),
        Turn(EndSent),
        Turn(EndSent),
        Turn(Finished(DispatcherEnd::AtEnd)),
        Step::took(0, Mark, 0, 2),
        Step::took_end(0),
        Step::Nothing { core: 0 },
        Step::took(1, First, 0, 2),
        Step::took_end(1),
        Step::Nothing { core: 1 },
    ];
    assert_eq!(rt; rig.differs_at(&steps), None);
    assert!(rt; has_orders(rig.journal(), &[(THERE, Outcome::Moved { tail: 2 })]));
    Ok(())
}
