// What parties share, with the passes and seats of each.
ghost use Rattle.std.specs.Prelude.{◌≡◌, ◌<◌, length, IfOk};
ghost use Rattle.packet_pool.specs.RuledPool.{new_passes};
ghost use Rattle.atomic_table.specs.Seated.{TableId};
ghost use Rattle.std.specs.Prelude.{ℕ};
ghost use Rattle.dispatch_loop.specs.Accepted.{IsAccepted};
ghost use Rattle.dispatch_loop.specs.Terms.{terms_of};
ghost use Rattle.toeplitz.specs.Bucket.{bucket_hash};
ghost use Rattle.sweep_tests.specs.Opening.{IsForWorker, IsForDispatcher};

use bucket_table::{BucketTable, FLOW_HASH_KEY_BYTES, FlowHashKey};
use core_queue::{RuledLane, SenderPass, TakerPass};
use dispatch_loop::Options;
use flow_work::FlowWork;
use handover_words::{ShelfSeat, WordShelf};
use load_meter::{Meter, MeterSeat};
use packet_fields::RunName;
use packet_pool::{PoolPass, RuledPool};
use rss_base::NoMemory;
use std::alloc::Global;
use std::sync::Wait;

/// What the parties of a run share.
#[derive(Drop)]
pub(crate) struct Shared<W: FlowWork, N: RunName> {
    pub(crate) first: RuledLane<N>,
    pub(crate) second: RuledLane<N>,
    pub(crate) shelf: WordShelf<BucketTable<W>, N>,
    pub(crate) pool: RuledPool,
    pub(crate) meter: Meter,
}

/// The passes and seats of a worker.
#[derive(Drop)]
pub(crate) struct ForWorker<W: FlowWork> {
    pub(crate) taker: TakerPass,
    pub(crate) seat: ShelfSeat<BucketTable<W>>,
    pub(crate) cells: PoolPass,
    pub(crate) load: MeterSeat,
}

/// The passes and seats of the dispatcher.
#[derive(Drop)]
pub(crate) struct ForDispatcher<W: FlowWork> {
    pub(crate) first: SenderPass,
    pub(crate) second: SenderPass,
    pub(crate) seat: ShelfSeat<BucketTable<W>>,
    pub(crate) cells: PoolPass,
    pub(crate) load: MeterSeat,
}

/// What is shared, with all its passes and seats.
#[derive(Drop)]
pub(crate) struct Opened<W: FlowWork, N: RunName> {
    pub(crate) shared: Shared<W, N>,
    pub(crate) own: ForDispatcher<W>,
    pub(crate) first: ForWorker<W>,
    pub(crate) second: ForWorker<W>,
}

// The passes of a new pool for three.
fn three(mut passes: Vec<PoolPass>) -> (PoolPass, PoolPass, PoolPass)
    requires { (home : TableId) × (cells : ℕ) × (passes.items ≡ new_passes home cells 3) }
    ensures { (home : TableId) (cells : ℕ) → passes.items ≡ new_passes home cells 3 → (result.0.home ≡ home) × (result.1.home ≡ home) × (result.2.home ≡ home) }
{
    let (Some(one), Some(two), Some(three)) = (passes.pop(), passes.pop(), passes.pop()) else {
        unreachable!()
    };
    (one, two, three)
}

/// Lanes for two cores, with a shelf, a pool and a meter for three parties.
pub(crate) fn open<W: FlowWork + Drop, N: RunName + Drop, R: Wait>(
    rt: &R,
    alloc: Global,
    options: &Options,
) -> Result<Opened<W, N>, NoMemory>
    requires accepted { IsAccepted options.now }
    requires cores { options.now.cores ≡ 2 }
    ensures own { IfOk result (λ r. IsForDispatcher (terms_of W.cost_of options.now) r.shared.first r.shared.second r.shared.shelf r.shared.pool r.shared.meter r.own.first r.own.second r.own.seat r.own.cells r.own.load) }
    ensures first { IfOk result (λ r. IsForWorker 0 (bucket_hash options.now.key (length options.now.start.owners)) r.shared.first r.shared.shelf r.shared.pool r.shared.meter r.first.taker r.first.seat r.first.cells r.first.load) }
    ensures second { IfOk result (λ r. IsForWorker 1 (bucket_hash options.now.key (length options.now.start.owners)) r.shared.second r.shared.shelf r.shared.pool r.shared.meter r.second.taker r.second.seat r.second.cells r.second.load) }
{
    let buckets = options.start.buckets();
    let key = &options.key;
    let hashing = FlowHashKey::from_bytes(&[7; FLOW_HASH_KEY_BYTES]);
    let room = options.pool + 1;
    let (first, first_sender, first_taker) = RuledLane::<N>::new(alloc, room, key, buckets)?;
    let (second, second_sender, second_taker) = RuledLane::<N>::new(alloc, room, key, buckets)?;
    let (shelf, mut seat) = WordShelf::<BucketTable<W>, N>::new(alloc, buckets, 3, key, &hashing)?;
    let (pool, passes) = RuledPool::new(rt, alloc, options.pool, 3)?;
    let (meter, mut load) = Meter::new(alloc, 2)?;
    let (cells, first_cells, second_cells) = three(passes);
    let first_seat = shelf.split(alloc, &mut seat)?;
    let second_seat = shelf.split(alloc, &mut seat)?;
    let first_load = meter.split(&mut load);
    let second_load = meter.split(&mut load);
    Ok(Opened {
        shared: Shared {
            first,
            second,
            shelf,
            pool,
            meter,
        },
        own: ForDispatcher {
            first: first_sender,
            second: second_sender,
            seat,
            cells,
            load,
        },
        first: ForWorker {
            taker: first_taker,
            seat: first_seat,
            cells: first_cells,
            load: first_load,
        },
        second: ForWorker {
            taker: second_taker,
            seat: second_seat,
            cells: second_cells,
            load: second_load,
        },
    })
}
