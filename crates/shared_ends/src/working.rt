// The party that takes and works.
ghost use Rattle.std.specs.Prelude.{◌≡◌, ◌<◌, ◌++◌, ℕ, [], IfSome};
ghost use Rattle.toeplitz.specs.declared.key.Key.{Key};
ghost use Rattle.packet_pool.specs.Facts.{facts};
ghost use Rattle.core_queue.specs.declared.item.Seen.TheVariants.{Packet};
ghost use Rattle.core_queue.specs.Cells.{IsCarried};
ghost use Rattle.core_queue.specs.RuledLane.{HasEnd};
ghost use Rattle.load_meter.specs.LoadHistory.{noted_at};
ghost use Rattle.shared_ends.specs.Packets.{IsPacketAt};
ghost use Rattle.shared_ends.specs.Sides.{IsAt, SameRun, stretches};

use crate::Side;
use crate::work_one::work_one;
use bucket_table::BucketTable;
use core_queue::{Item, LaneIn, RuledLane, TakerPass};
use flow_work::FlowWork;
use handover_words::{Shelf, WordShelf};
use load_meter::{Meter, NoteLoad};
use packet_fields::{PacketInfo, RunName};
use packet_pool::{Cell, Kind, Pool, RuledPool};
use std::sync::Wait;
use std::thread;

// The first packet of this bucket that came, if one did, once this cell has come too.
fn first_packet<N: RunName>(
    first: Option<PacketInfo>,
    cell: &Cell,
    bucket: u16,
) -> Option<PacketInfo>
    ensures { (key : Key) (buckets : ℕ)
        → IsCarried N.packets key buckets (Packet (facts cell.now))
        → IfSome first (IsPacketAt N.packets key buckets bucket 0)
        → IfSome result (IsPacketAt N.packets key buckets bucket 0) }
{
    if first.is_none() && cell.bucket == bucket && cell.place == 0 && cell.kind != Kind::Mark {
        Some(cell.info)
    } else {
        first
    }
}

// Takes until End, and gives each cell back to the pool. Answers the bucket's first packet, if it came.
fn take_all<R: Wait, N: RunName, L: LaneIn<N>, P: Pool>(
    rt: &R,
    lane: &mut L,
    pool: &mut P,
    bucket: u16,
) -> Option<PacketInfo>
    ensures homes { (L.home lane.new ≡ L.home lane.old) × (P.home pool.new ≡ P.home pool.old) }
    ensures run { SameRun (L.history lane.old) (L.history lane.new) }
    ensures ended { HasEnd (L.history lane.new).taken }
    ensures packet { IfSome result (IsPacketAt N.packets (L.history lane.old).key (L.history lane.old).buckets bucket 0) }
{
    let mut first = None;
    for _ in rt.forever() {
        match lane.take() {
            None => thread::yield_now(),
            Some(Item::End) => return first,
            Some(Item::Cell(cell)) => {
                first = first_packet::<N>(first, &cell, bucket);
                let _full = pool.give(cell);
            }
        }
    }
    unreachable!()
}

// Works the bucket's first packet, if it came and the table is there. Answers how many packets were
// worked.
fn work_first<W: FlowWork, N: RunName, H: Shelf<BucketTable<W>, N>>(
    shelf: &mut H,
    work: &W,
    packet: Option<PacketInfo>,
    bucket: u16,
) -> u64
    requires range { bucket < (H.history shelf.old).buckets }
    requires free { (H.history shelf.old).held ≡ [] }
    requires packet { IfSome packet (IsPacketAt N.packets (H.history shelf.old).key (H.history shelf.old).buckets bucket 0) }
    ensures home { H.home shelf.new ≡ H.home shelf.old }
    ensures run { ((H.history shelf.new).key ≡ (H.history shelf.old).key) × ((H.history shelf.new).buckets ≡ (H.history shelf.old).buckets) × ((H.history shelf.new).shares ≡ (H.history shelf.old).shares) }
    ensures free { (H.history shelf.new).held ≡ [] }
    ensures ended { (H.history shelf.new).ended ≡ stretches bucket result ++ (H.history shelf.old).ended }
{
    let Some(packet) = packet else {
        return 0;
    };
    match work_one::<W, N, H>(shelf, work, &packet, bucket, 0) {
        Ok(()) => 1,
        Err(_) => 0,
    }
}

// Takes all that is sent, works the bucket's first packet, and notes how many packets were worked.
// Answers that number too.
pub(crate) fn works<R: Wait, W: FlowWork, N: RunName>(
    rt: &R,
    lane: &RuledLane<N>,
    shelf: &WordShelf<BucketTable<W>, N>,
    pool: &RuledPool,
    meter: &Meter,
    side: Side<TakerPass, BucketTable<W>>,
    bucket: u16,
    core: u8,
    work: &W,
) -> (Side<TakerPass, BucketTable<W>>, u64)
    requires at { IsAt lane.now shelf.now pool.now meter.now side }
    requires range { (bucket < shelf.now.run.buckets) × (core < meter.now.cores) }
    requires none { noted_at core side.load.history ≡ 0 }
    ensures at { IsAt lane.now shelf.now pool.now meter.now result.0 }
    ensures shares { result.0.seat.history.shares ≡ side.seat.history.shares }
    ensures whole { HasEnd result.0.lane.history.taken }
    ensures ended { result.0.seat.history.ended ≡ stretches bucket result.1 ++ side.seat.history.ended }
    ensures noted { noted_at core result.0.load.history ≡ result.1 }
{
    let Side {
        lane: pass,
        seat,
        cells,
        load,
    } = side;
    let mut back = lane.taker(rt, pass);
    let mut end = shelf.end(seat);
    let mut into = pool.end(rt, cells);
    let mut loads = meter.end(load);
    let first = take_all::<R, N, _, _>(rt, &mut back, &mut into, bucket);
    let worked = work_first::<W, N, _>(&mut end, work, first, bucket);
    loads.note(core, worked);
    let side = Side {
        lane: back.into_pass(),
        seat: end.into_seat(),
        cells: into.into_pass(),
        load: loads.into_seat(),
    };
    (side, worked)
}
