// Shared objects for two parties, at which nothing was done.
ghost use Rattle.std.specs.Prelude.{◌≡◌, ◌+◌, [], IfOk};
ghost use Rattle.toeplitz.specs.declared.key.TheConstants.{DEFAULT_KEY};
ghost use Rattle.shared_ends.specs.Sides.{IsFreeSeat, IsAt};

use crate::Side;
use bucket_table::{BucketTable, FLOW_HASH_KEY_BYTES, FlowHashKey};
use core_queue::{RuledLane, SenderPass, TakerPass};
use flow_work::FlowWork;
use handover_words::{ShelfSeat, WordShelf};
use load_meter::Meter;
use packet_fields::RunName;
use packet_pool::RuledPool;
use rss_base::NoMemory;
use std::alloc::Global;
use std::sync::Wait;
use toeplitz::DEFAULT_KEY;

// A shelf and a seat of it for each of two parties.
#[derive(Drop)]
pub(crate) struct ForTwo<W: FlowWork, N: RunName> {
    pub(crate) shelf: WordShelf<BucketTable<W>, N>,
    pub(crate) one: ShelfSeat<BucketTable<W>>,
    pub(crate) other: ShelfSeat<BucketTable<W>>,
}

// A shelf of one bucket for two parties.
pub(crate) fn shelf_for_two<W: FlowWork, N: RunName>(
    alloc: Global,
) -> Result<ForTwo<W, N>, NoMemory>
    ensures run { IfOk result (λ r. r.shelf.run ≡ record { key = DEFAULT_KEY; buckets = 1; ends = 2 }) }
    ensures seats { IfOk result (λ r. IsFreeSeat r.shelf r.one × IsFreeSeat r.shelf r.other) }
    ensures shares { IfOk result (λ r. r.one.history.shares + r.other.history.shares ≡ 2) }
    ensures new { IfOk result (λ r. (r.one.history.ended ≡ []) × (r.other.history.ended ≡ [])) }
{
    let hashing = FlowHashKey::from_bytes(&[7; FLOW_HASH_KEY_BYTES]);
    let (shelf, mut one) = WordShelf::new(alloc, 1, 2, &DEFAULT_KEY, &hashing)?;
    let other = shelf.split(alloc, &mut one)?;
    Ok(ForTwo { shelf, one, other })
}

// All that two parties share, and the side of each.
#[derive(Drop)]
pub(crate) struct Opened<W: FlowWork, N: RunName> {
    pub(crate) lane: RuledLane<N>,
    pub(crate) shelf: WordShelf<BucketTable<W>, N>,
    pub(crate) pool: RuledPool,
    pub(crate) meter: Meter,
    pub(crate) sender: Side<SenderPass, BucketTable<W>>,
    pub(crate) taker: Side<TakerPass, BucketTable<W>>,
}

// A lane for four items, a shelf of one bucket, a pool of two cells, and a meter of two cores.
pub(crate) fn open_for_two<R: Wait, W: FlowWork, N: RunName>(
    rt: &R,
    alloc: Global,
) -> Result<Opened<W, N>, NoMemory>
    ensures run { IfOk result (λ o. (o.shelf.run ≡ record { key = DEFAULT_KEY; buckets = 1; ends = 2 }) × (o.meter.cores ≡ 2)) }
    ensures sender { IfOk result (λ o. IsAt o.lane o.shelf o.pool o.meter o.sender) }
    ensures taker { IfOk result (λ o. IsAt o.lane o.shelf o.pool o.meter o.taker) }
    ensures shares { IfOk result (λ o. o.sender.seat.history.shares + o.taker.seat.history.shares ≡ 2) }
    ensures sent { IfOk result (λ o. o.sender.lane.history.sent ≡ []) }
    ensures ended { IfOk result (λ o. (o.sender.seat.history.ended ≡ []) × (o.taker.seat.history.ended ≡ [])) }
    ensures noted { IfOk result (λ o. (o.sender.load.history.noted ≡ []) × (o.taker.load.history.noted ≡ [])) }
{
    let (lane, sends, takes) = RuledLane::new(alloc, 4, &DEFAULT_KEY, 1)?;
    let ForTwo { shelf, one, other } = shelf_for_two(alloc)?;
    let (pool, mut passes) = RuledPool::new(rt, alloc, 2, 2)?;
    let (meter, mut load) = Meter::new(alloc, 2)?;
    let (Some(cells), Some(more)) = (passes.pop(), passes.pop()) else {
        return Err(NoMemory);
    };
    let noted = meter.split(&mut load);
    let sender = Side {
        lane: sends,
        seat: one,
        cells,
        load,
    };
    let taker = Side {
        lane: takes,
        seat: other,
        cells: more,
        load: noted,
    };
    Ok(Opened {
        lane,
        shelf,
        pool,
        meter,
        sender,
        taker,
    })
}
