// A round of balancing, by what a meter was read.
ghost use Rattle.std.specs.Prelude.{◌≡◌, IfOk};
ghost use Rattle.dispatch_loop.specs.Accepted.{IsAccepted};

use crate::capture::{EVEN, ODD, capture};
use crate::journals::is_order;
use crate::rig::Rig;
use crate::step::Step;
use crate::step::Step::{Claim, Note, Turn};
use balancer::PolicyName;
use dispatch_loop::DispatcherTurn::{EndSent, Finished, Ordered, Round, Sent};
use dispatch_loop::{DispatcherEnd, Options};
use flow_work::WorkName;
use indirection::{Entry, MoveOrder, Outcome, Proposal, Table};
use packet_pool::Kind::{First, Mark, Next};
use std::alloc::Global;
use std::test::Fail;
use toeplitz::DEFAULT_KEY;

// Bucket 1 is to go to core 1 where the round is made.
const BESIDE: MoveOrder = MoveOrder {
    at: 3,
    bucket: 1,
    to: 1,
};

// Two cores, two buckets of core 0, and rounds of three packets.
fn options(alloc: Global) -> Result<Options, Fail>
    ensures accepted { IfOk result IsAccepted }
    ensures cores { IfOk result (λ o. o.cores ≡ 2) }
{
    let start = Table::of_list(alloc, 2, 2, &[0, 0])?;
    Ok(Options {
        key: DEFAULT_KEY,
        cores: 2,
        start,
        work: WorkName::Count,
        moves: vec![in alloc; BESIDE]?,
        round: 3,
        limit: 4,
        policy: PolicyName::Greedy,
        pool: 8,
        packets: 4,
    })
}

// Whether the entry is the round behind three packets of which the core worked two: bucket 0 with
// two of them is to go to core 1, and moved behind them.
fn is_round(entry: &Entry) -> bool {
    let Entry::Round(round) = entry else {
        return false;
    };
    let there = Proposal {
        bucket: 0,
        from: 0,
        to: 1,
        gain: 4,
    };
    round.at() == 3
        && round.loads().bucket() == [2, 1].as_slice()
        && round.loads().base() == [1, 0].as_slice()
        && round.proposals() == [there].as_slice()
        && round.outcomes() == [Outcome::Moved { tail: 2 }].as_slice()
}

#[test]
fn a_round_is_tried_before_the_orders_of_its_place(rt: HostRuntime) -> Result<(), Fail> {
    let alloc = rt.alloc();
    let bytes = capture(alloc, &[&EVEN, &EVEN, &ODD, &EVEN])?;
    let mut rig = Rig::new(alloc, &options(alloc)?, bytes, Vec::new(alloc), 8)?;
    let steps = [
        Turn(Sent),
        Turn(Sent),
        Claim {
            bucket: 0,
            place: 0,
        },
        Note { core: 0, worked: 2 },
        Turn(Sent),
        Turn(Round),
        Turn(Ordered), // the proposal
        Turn(Ordered),
        Turn(Sent),
        Turn(EndSent),
        Turn(EndSent),
        Turn(Finished(DispatcherEnd::AtEnd)),
        Step::took(0, First, 0, 0),
        Step::took(0, Next, 0, 1),
        Step::took(0, First, 1, 0),
        Step::took(0, Mark, 0, 2),
        Step::took_end(0),
        Step::took(1, First, 0, 2),
        Step::took_end(1),
    ];
    assert_eq!(rt; rig.differs_at(&steps), None);
    let unclaimed = Outcome::InPassage {
        tail: 0,
        sent: 1,
        word: Some(1),
    };
    let entries = rig.journal().entries();
    assert!(rt; entries.len() == 2 && is_round(&entries[0]));
    assert!(rt; is_order(&entries[1], BESIDE, unclaimed));
    Ok(())
}
