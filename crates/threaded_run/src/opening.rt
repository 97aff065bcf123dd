// What a run in threads is made of, before its source is read.
ghost use Rattle.std.specs.Prelude.{◌≡◌, ℕ, ◌+◌, ◌<◌, Some, length, slice_get, IfOk};
ghost use Rattle.core_queue.specs.RuledLane.{AtLane};
ghost use Rattle.packet_pool.specs.RuledPool.{AtPool};
ghost use Rattle.worker_loop.specs.Workload.{workload};
ghost use Rattle.dispatch_loop.specs.Accepted.{IsAccepted};
ghost use Rattle.run_shifts.specs.WorkerParties.{AreWorkerParties};
ghost use Rattle.threaded_run.specs.PartyLists.{IsFreeSeat};
ghost use Rattle.threaded_run.specs.Opening.{IsNewTaker, IsShared};

use crate::lanes::{Lanes, open_lanes};
use bucket_table::{BucketTable, FlowHashKey};
use core_queue::{SenderPass, TakerPass};
use dispatch_loop::Options;
use flow_work::FlowWork;
use handover_words::{ShelfSeat, WordShelf};
use load_meter::{Meter, MeterSeat};
use packet_fields::RunName;
use packet_pool::{PoolPass, RuledPool};
use rss_base::NoMemory;
use run_shifts::{SharedObjects, WorkerParty};
use std::alloc::Global;
use std::sync::Wait;
use toeplitz::Key;
use worker_loop::Worker;

/// What all parties share, the passes of lanes and pool, and the one seat of shelf and meter.
#[derive(Drop)]
pub(crate) struct Shared<W: FlowWork, N: RunName> {
    pub(crate) shared: SharedObjects<W, N>,
    pub(crate) senders: Vec<SenderPass>,
    pub(crate) takers: Vec<TakerPass>,
    /// A pass of the pool for each core.
    pub(crate) cells: Vec<PoolPass>,
    /// The dispatcher's pass of the pool.
    pub(crate) own_cells: PoolPass,
    pub(crate) seat: ShelfSeat<BucketTable<W>>,
    pub(crate) load: MeterSeat,
}

/// Lanes with room for all cells of the pool and one End each, the pool, the shelf with an end for
/// each core and one for the dispatcher, and the meter. The tables on the shelf hash by the numbers
/// handed in.
pub(crate) fn open_shared<W: FlowWork + Drop, N: RunName + Drop, R: Wait>(
    rt: &R,
    alloc: Global,
    options: &Options,
    hashing: &FlowHashKey,
) -> Result<Shared<W, N>, NoMemory>
    requires { IsAccepted options.now }
    ensures { IfOk result (λ s. IsShared options.now s.shared s.senders.items s.takers.items s.cells.items s.own_cells s.seat s.load) }
{
    let buckets = options.start.buckets();
    let ends = options.cores + 1;
    let Lanes {
        lanes,
        senders,
        takers,
    } = open_lanes(
        alloc,
        options.cores,
        options.pool + 1,
        &options.key,
        buckets,
    )?;
    let (shelf, seat) = WordShelf::new(alloc, buckets, ends, &options.key, hashing)?;
    let (pool, mut cells) = RuledPool::new(rt, alloc, options.pool, ends)?;
    let (meter, load) = Meter::new(alloc, options.cores)?;
    let Some(own_cells) = cells.pop() else {
        unreachable!()
    };
    Ok(Shared {
        shared: SharedObjects {
            lanes,
            shelf,
            pool,
            meter,
        },
        senders,
        takers,
        cells,
        own_cells,
        seat,
        load,
    })
}

/// A new worker for each lane, with a seat of shelf and meter that is cut off from those handed in.
pub(crate) fn open_worker_parties<W: FlowWork + Drop, N: RunName + Drop>(
    alloc: Global,
    shared: &SharedObjects<W, N>,
    key: &Key,
    buckets: u16,
    mut takers: Vec<TakerPass>,
    mut cells: Vec<PoolPass>,
    seat: &mut ShelfSeat<BucketTable<W>>,
    load: &mut MeterSeat,
) -> Result<Vec<WorkerParty<Worker<W>, BucketTable<W>>>, NoMemory>
    requires run { (key.now ≡ shared.now.shelf.run.key) × (buckets ≡ shared.now.shelf.run.buckets) }
    requires few { (length takers.items < 256) × (length takers.items ≡ length cells.items) × (length takers.items < shared.now.meter.cores + 1) }
    requires takers { (c : ℕ) (t : AtLane) → slice_get takers.items c ≡ Some t → IsNewTaker shared.now c t }
    requires cells { (i : ℕ) (q : AtPool) → slice_get cells.items i ≡ Some q → q.home ≡ shared.now.pool.home }
    requires seat { IsFreeSeat shared.now.shelf seat.old }
    requires shares { length takers.items < seat.old.history.shares }
    requires load { load.old.home ≡ shared.now.meter.home }
    ensures worker_parties { IfOk result (λ worker_parties. AreWorkerParties (workload W.opening W.after W.cost_of N.packets) shared.now worker_parties.items × (length worker_parties.items ≡ length takers.items)) }
    ensures seat { IsFreeSeat shared.now.shelf seat.new }
    ensures shares { IfOk result (λ worker_parties. seat.new.history.shares + length takers.items ≡ seat.old.history.shares) }
    ensures load { load.new ≡ load.old }
{
    let (Some(taker), Some(pass)) = (takers.pop(), cells.pop()) else {
        return Ok(Vec::new(alloc));
    };
    let core = takers.len() as u8;
    let mut worker_parties = open_worker_parties(
        alloc, shared, key, buckets, takers, cells, seat, load,
    )?;
    let worker_party = WorkerParty {
        core,
        worker: Worker::new(alloc, core, key, buckets)?,
        taker,
        seat: shared.shelf.split(alloc, seat)?,
        load: shared.meter.split(load),
        cells: pass,
        ended: false,
    };
    if worker_parties.push(worker_party).is_err() {
        return Err(NoMemory);
    }
    Ok(worker_parties)
}
