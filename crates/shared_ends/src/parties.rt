ghost use Rattle.std.specs.Prelude.{◌≡◌, ◌+◌, ◌<◌, ◌≤◌, ◌++◌, [], vec_len, vec_capacity};
ghost use Rattle.handover_words.specs.Stands.{IsTableOf};
ghost use Rattle.core_queue.specs.RuledLane.{HasEnd};
ghost use Rattle.load_meter.specs.LoadHistory.{noted_at};
ghost use Rattle.shared_ends.specs.Packets.{IsPacketAt};
ghost use Rattle.shared_ends.specs.Sides.{IsAt, IsTakenWhole, IsClosed, stretches};

use crate::Side;
use crate::sending::sends;
use crate::working::works;
use bucket_table::BucketTable;
use core_queue::{LaneNote, RuledLane, SenderPass, TakerPass};
use flow_work::FlowWork;
use handover_words::{ShelfNote, WordShelf};
use load_meter::{Meter, MeterSeat};
use packet_fields::{PacketInfo, RunName};
use packet_pool::RuledPool;
use std::sync::Wait;
use std::thread;
use std::thread::Threads;

/// What is left when the threads are joined and all is closed.
#[derive(Drop)]
pub struct Left {
    pub lane: LaneNote,
    pub shelf: ShelfNote,
    pub load: MeterSeat,
    /// How many packets were worked: 1, or 0 where the pool had no cell, the lane no room, or the
    /// shelf not the table. No clause says which.
    pub worked: u64,
}

// Both parties, each in a thread.
fn in_two_threads<R: Threads + Wait + Sync, W: FlowWork + Sync, N: RunName + Sync>(
    rt: &R,
    lane: &RuledLane<N>,
    shelf: &WordShelf<BucketTable<W>, N>,
    pool: &RuledPool,
    meter: &Meter,
    sender: Side<SenderPass, BucketTable<W>>,
    taker: Side<TakerPass, BucketTable<W>>,
    work: &W,
    packet: &PacketInfo,
    bucket: u16,
    core: u8,
) -> (
    Side<SenderPass, BucketTable<W>>,
    (Side<TakerPass, BucketTable<W>>, u64),
)
    requires sender { IsAt lane.now shelf.now pool.now meter.now sender }
    requires taker { IsAt lane.now shelf.now pool.now meter.now taker }
    requires new { sender.lane.history.sent ≡ [] }
    requires none { noted_at core taker.load.history ≡ 0 }
    requires range { (bucket < shelf.now.run.buckets) × (core < meter.now.cores) }
    requires packet { IsPacketAt N.packets shelf.now.run.key shelf.now.run.buckets bucket 0 packet.now }
    ensures sender { IsAt lane.now shelf.now pool.now meter.now result.0 }
    ensures taker { IsAt lane.now shelf.now pool.now meter.now result.1.0 }
    ensures shares { (result.0.seat.history.shares ≡ sender.seat.history.shares) × (result.1.0.seat.history.shares ≡ taker.seat.history.shares) }
    ensures idle { (result.0.seat.history.ended ≡ sender.seat.history.ended) × (result.0.load.history.noted ≡ sender.load.history.noted) }
    ensures whole { HasEnd result.1.0.lane.history.taken }
    ensures ended { result.1.0.seat.history.ended ≡ stretches bucket result.1.1 ++ taker.seat.history.ended }
    ensures noted { noted_at core result.1.0.load.history ≡ result.1.1 }
{
    thread::join(
        rt,
        move ||
            requires at { IsAt lane.now shelf.now pool.now meter.now sender }
            requires new { sender.lane.history.sent ≡ [] }
            requires range { (bucket < shelf.now.run.buckets) × (core < meter.now.cores) }
            requires packet { IsPacketAt N.packets shelf.now.run.key shelf.now.run.buckets bucket 0 packet.now }
        { sends(rt, lane, shelf, pool, meter, sender, bucket, core, packet) },
        move ||
            requires at { IsAt lane.now shelf.now pool.now meter.now taker }
            requires range { (bucket < shelf.now.run.buckets) × (core < meter.now.cores) }
            requires none { noted_at core taker.load.history ≡ 0 }
        { works(rt, lane, shelf, pool, meter, taker, bucket, core, work) },
    )
}

/// Has one thread send the first packet of a bucket, in a cell of the pool, and then End, while
/// another takes what is sent, gives the cells back, works the packet into the bucket's table, and
/// notes for its core how many packets it worked, as if each cost 1. Behind them the lane is closed, the seats of the
/// shelf and of the meter are joined, and the shelf is closed: its tables are appended to a list
/// that has room for them. It takes memory in the work alone.
pub fn send_and_work<R: Threads + Wait + Sync, W: FlowWork + Sync, N: RunName + Sync>(
    rt: &R,
    lane: RuledLane<N>,
    shelf: WordShelf<BucketTable<W>, N>,
    pool: &RuledPool,
    meter: &Meter,
    sender: Side<SenderPass, BucketTable<W>>,
    taker: Side<TakerPass, BucketTable<W>>,
    work: &W,
    packet: &PacketInfo,
    bucket: u16,
    core: u8,
    into: &mut Vec<BucketTable<W>>,
) -> Left
    requires sender { IsAt lane shelf pool.now meter.now sender }
    requires taker { IsAt lane shelf pool.now meter.now taker }
    requires shares { sender.seat.history.shares + taker.seat.history.shares ≡ shelf.run.ends }
    requires new { (sender.lane.history.sent ≡ []) × (sender.seat.history.ended ≡ []) × (taker.seat.history.ended ≡ []) }
    requires none { (sender.load.history.noted ≡ []) × (noted_at core taker.load.history ≡ 0) }
    requires range { (bucket < shelf.run.buckets) × (core < meter.now.cores) }
    requires packet { IsPacketAt N.packets shelf.run.key shelf.run.buckets bucket 0 packet.now }
    requires room { vec_len into.old + shelf.run.buckets ≤ vec_capacity into.old }
    ensures lane { IsTakenWhole N.packets shelf.run result.lane }
    ensures shelf { result.shelf ≡ stretches bucket result.worked }
    ensures tables { IsClosed (IsTableOf W.opening W.after N.packets) shelf.run result.shelf into.old.items into.new.items }
    ensures load { (result.load.home ≡ meter.now.home) × (noted_at core result.load.history ≡ result.worked) }
{
    let (sender, (taker, worked)) = in_two_threads(
        rt, &lane, &shelf, pool, meter, sender, taker, work, packet, bucket, core,
    );
    let Side {
        lane: sent,
        mut seat,
        cells: _,
        mut load,
    } = sender;
    let Side {
        lane: taken,
        seat: other,
        cells: _,
        load: noted,
    } = taker;
    let lane = lane.close(sent, taken);
    meter.join(&mut load, noted);
    shelf.join(&mut seat, other);
    let shelf = shelf.close(seat, into);
    Left {
        lane,
        shelf,
        load,
        worked,
    }
}
