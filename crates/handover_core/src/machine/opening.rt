// The first state of a machine.
ghost use Rattle.std.specs.Prelude.{◌≡◌, ◌<◌, ◌≤◌, ◌+◌, [], ℕ, length, map, replicate, IfOk, All, Some};
ghost use Rattle.handover_core.specs.State.{Away, first_state};
ghost use Rattle.handover_core.specs.Runs.{IsStart};
ghost use Rattle.handover_core.specs.Cores.{core_state, HaveRoom};

use crate::{BucketState, FEWEST_CELLS, MOST_CELLS, MOST_PACKETS, Machine, WorkerCore};
use indirection::Table;
use rss_base::NoMemory;
use std::alloc::Global;

impl Machine {
    /// A machine that is to send packets of these buckets, with `pool` cells and at most `moves`
    /// moves, over the cores and the owners of a table. It makes all the room that it will need.
    pub fn new(
        alloc: Global,
        cores: u8,
        start: &Table,
        packets: Vec<u16>,
        pool: u32,
        moves: u64,
    ) -> Result<Machine, NoMemory>
        requires cores { cores ≡ start.now.cores }
        requires few { length packets.items ≤ MOST_PACKETS }
        requires buckets { All (λ bucket. bucket < length start.now.owners) packets.items }
        requires fewest { FEWEST_CELLS ≤ pool }
        requires most { pool ≤ MOST_CELLS }
        requires moves { moves ≤ length packets.items }
        ensures state { IfOk result (λ m. m ≡ first_state start.now.owners cores packets.items pool moves) }
        ensures start { IfOk result IsStart }
    {
        let room = packets.len() + moves as usize + cores as usize;
        let Ok(dispatched) = Vec::with_capacity(alloc, room) else {
            return Err(NoMemory);
        };
        let buckets = first_buckets(alloc, start.owners())?;
        let workers = idle_cores(alloc, cores, buckets.len(), pool as usize + 1, room)?;
        let Ok(sent_of) = vec![in alloc; 0; buckets.len()] else {
            return Err(NoMemory);
        };
        let Ok(ends) = vec![in alloc; false; cores as usize] else {
            return Err(NoMemory);
        };
        Ok(Machine {
            packets,
            pool,
            first_moves: moves,
            sent: 0,
            sent_of,
            moves,
            free: pool,
            claims: 0,
            releases: 0,
            dispatched,
            ending: false,
            ends,
            buckets,
            cores: workers,
        })
    }
}

// Each bucket with its owner, its table on the shelf and nothing done.
fn first_buckets(alloc: Global, owners: &[u8]) -> Result<Vec<BucketState>, NoMemory>
    ensures { IfOk result (λ buckets. buckets.items ≡ map (λ owner. record { owner = owner; start = 0; seen = 0; word = 1; shelf = Some 0 }) owners.now) }
{
    let buckets = owners.iter().map(|owner| BucketState {
        owner: *owner,
        start: 0,
        seen: 0,
        word: 1,
        shelf: Some(0),
    });
    match buckets.collect(alloc) {
        Ok(buckets) => Ok(buckets),
        Err(_) => Err(NoMemory),
    }
}

// So many cores with nothing to do.
fn idle_cores(
    alloc: Global,
    count: u8,
    buckets: usize,
    queued: usize,
    taken: usize,
) -> Result<Vec<WorkerCore>, NoMemory>
    ensures state { IfOk result (λ cores. map core_state cores.items ≡ replicate count (record { queue = []; taken = []; hands = replicate buckets Away })) }
    ensures room { IfOk result (λ cores. HaveRoom queued taken cores.items) }
{
    let mut cores = Vec::new(alloc);
    for _ in 0..count {
        let core = WorkerCore::new(alloc, buckets, queued, taken)?;
        let Ok(()) = cores.push(core) else {
            return Err(NoMemory);
        };
    }
    Ok(cores)
}
