// The party that sends.
ghost use Rattle.std.specs.Prelude.{◌≡◌, ◌<◌, ◌++◌, ◌∷◌, []};
ghost use Rattle.packet_pool.specs.Facts.{facts, IsAlone};
ghost use Rattle.core_queue.specs.declared.item.Seen.TheVariants.{Close};
ghost use Rattle.core_queue.specs.Cells.{LegalCells};
ghost use Rattle.shared_ends.specs.Packets.{IsPacketAt};
ghost use Rattle.shared_ends.specs.Sides.{IsAt, SameRun};

use crate::Side;
use bucket_table::BucketTable;
use core_queue::{Item, LaneOut, RuledLane, SenderPass};
use flow_work::FlowWork;
use handover_words::{Shelf, WordShelf};
use load_meter::{Meter, ReadLoad};
use packet_fields::{PacketInfo, RunName};
use packet_pool::{Cell, Kind, Pool, RuledPool};
use std::sync::Wait;
use std::thread;

// The cell with the packet, the first one of its bucket.
fn filled(mut cell: Box<Cell>, bucket: u16, packet: &PacketInfo) -> Box<Cell>
    ensures facts { facts result.value ≡ record { info = packet.now; bucket = bucket; place = 0; kind = Kind.First } }
    ensures alone { IsAlone result.value }
{
    *cell = Cell {
        info: *packet,
        bucket,
        place: 0,
        kind: Kind::First,
        next: None,
    };
    cell
}

// Sends the packet, where the pool has a cell and the lane has room. A cell that the lane hands back
// goes to the pool again. End may be sent behind it.
fn send_packet<N: RunName, L: LaneOut<N>, P: Pool>(
    lane: &mut L,
    pool: &mut P,
    bucket: u16,
    packet: &PacketInfo,
)
    requires new { (L.history lane.old).sent ≡ [] }
    requires range { bucket < (L.history lane.old).buckets }
    requires packet { IsPacketAt N.packets (L.history lane.old).key (L.history lane.old).buckets bucket 0 packet.now }
    ensures homes { (L.home lane.new ≡ L.home lane.old) × (P.home pool.new ≡ P.home pool.old) }
    ensures run { SameRun (L.history lane.old) (L.history lane.new) }
    ensures legal { LegalCells N.packets (L.history lane.new).key (L.history lane.new).buckets ((L.history lane.new).sent ++ Close ∷ []) }
{
    if let Some(cell) = pool.take() {
        if let Err(Item::Cell(cell)) = lane.push(Item::Cell(filled(cell, bucket, packet))) {
            let _full = pool.give(cell);
        }
    }
}

// Sends End, as soon as the lane has room.
fn send_end<R: Wait, N: RunName, L: LaneOut<N>>(rt: &R, lane: &mut L)
    requires legal { LegalCells N.packets (L.history lane.old).key (L.history lane.old).buckets ((L.history lane.old).sent ++ Close ∷ []) }
    ensures home { L.home lane.new ≡ L.home lane.old }
    ensures run { SameRun (L.history lane.old) (L.history lane.new) }
{
    for _ in rt.forever() {
        if lane.push(Item::End).is_ok() {
            return;
        }
        thread::yield_now();
    }
    unreachable!()
}

// Sends the packet and then End. Looks at the bucket's word, and reads what the core has worked.
pub(crate) fn sends<R: Wait, W: FlowWork, N: RunName>(
    rt: &R,
    lane: &RuledLane<N>,
    shelf: &WordShelf<BucketTable<W>, N>,
    pool: &RuledPool,
    meter: &Meter,
    side: Side<SenderPass, BucketTable<W>>,
    bucket: u16,
    core: u8,
    packet: &PacketInfo,
) -> Side<SenderPass, BucketTable<W>>
    requires at { IsAt lane.now shelf.now pool.now meter.now side }
    requires new { side.lane.history.sent ≡ [] }
    requires range { (bucket < shelf.now.run.buckets) × (core < meter.now.cores) }
    requires packet { IsPacketAt N.packets shelf.now.run.key shelf.now.run.buckets bucket 0 packet.now }
    ensures at { IsAt lane.now shelf.now pool.now meter.now result }
    ensures shares { result.seat.history.shares ≡ side.seat.history.shares }
    ensures ended { result.seat.history.ended ≡ side.seat.history.ended }
    ensures noted { result.load.history.noted ≡ side.load.history.noted }
{
    let Side {
        lane: pass,
        seat,
        cells,
        load,
    } = side;
    let mut out = lane.sender(rt, pass);
    let mut end = shelf.end(seat);
    let mut from = pool.end(rt, cells);
    let mut loads = meter.end(load);
    send_packet(&mut out, &mut from, bucket, packet);
    send_end(rt, &mut out);
    end.look(bucket);
    loads.read(core);
    Side {
        lane: out.into_pass(),
        seat: end.into_seat(),
        cells: from.into_pass(),
        load: loads.into_seat(),
    }
}
