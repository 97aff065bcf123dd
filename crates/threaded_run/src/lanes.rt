// The lanes of a run, and the dispatcher's ends of them.
ghost use Rattle.std.specs.Prelude.{◌≡◌, ◌<◌, ◌≤◌, [], length, vec_capacity, IfOk};
ghost use Rattle.threaded_run.specs.PartyLists.{new_passes, AreOfLanes};

use core_queue::{RuledLane, SenderEnd, SenderPass, TakerPass};
use packet_fields::RunName;
use rss_base::NoMemory;
use std::alloc::Global;
use toeplitz::Key;

/// The lanes of a run with their passes, in the order of cores.
#[derive(Drop)]
pub(crate) struct Lanes<N: RunName> {
    pub(crate) lanes: Vec<RuledLane<N>>,
    pub(crate) senders: Vec<SenderPass>,
    pub(crate) takers: Vec<TakerPass>,
}

/// A lane for each core, with room for so many items.
pub(crate) fn open_lanes<N: RunName + Drop>(
    alloc: Global,
    cores: u8,
    room: u32,
    key: &Key,
    buckets: u16,
) -> Result<Lanes<N>, NoMemory>
    requires room { 0 < room }
    requires buckets { 0 < buckets }
    ensures count { IfOk result (λ r. length r.lanes.items ≡ cores) }
    ensures senders { IfOk result (λ r. r.senders.items ≡ new_passes key.now buckets r.lanes.items) }
    ensures takers { IfOk result (λ r. r.takers.items ≡ new_passes key.now buckets r.lanes.items) }
{
    let Ok(mut lanes) = Vec::with_capacity(alloc, cores as usize) else {
        return Err(NoMemory);
    };
    let Ok(mut senders) = Vec::with_capacity(alloc, cores as usize) else {
        return Err(NoMemory);
    };
    let Ok(mut takers) = Vec::with_capacity(alloc, cores as usize) else {
        return Err(NoMemory);
    };
    for _core in 0..cores {
        let (lane, sender, taker) = RuledLane::<N>::new(alloc, room, key, buckets)?;
        lanes.push_reserved(lane);
        senders.push_reserved(sender);
        takers.push_reserved(taker);
    }
    Ok(Lanes {
        lanes,
        senders,
        takers,
    })
}

/// Puts an end for each lane, made of its pass, into a list that has room for them.
pub(crate) fn ends_of<'a, R, N: RunName>(
    rt: &'a R,
    lanes: &'a [RuledLane<N>],
    passes: Vec<SenderPass>,
    ends: &mut Vec<SenderEnd<'a, R, N>>,
)
    requires lanes { AreOfLanes lanes.now passes.items }
    requires none { ends.old.items ≡ [] }
    requires room { length passes.items ≤ vec_capacity ends.old }
    ensures { ends.new.items ≡ passes.items }
{
    let mut core = 0;
    for pass in passes {
        ends.push_reserved(lanes[core].sender(rt, pass));
        core += 1;
    }
}
