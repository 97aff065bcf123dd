ghost use Rattle.std.specs.Prelude.{◌≡◌, ◌+◌, ◌<◌, ◌≤◌, [], length, IfOk};
ghost use Rattle.handover_words.specs.Stands.{IsTableOf};
ghost use Rattle.shared_ends.specs.Packets.{IsPacketAt, AreFirstOf};
ghost use Rattle.shared_ends.specs.Sides.{IsFreeSeat};

use crate::work_one::work_one;
use bucket_table::BucketTable;
use flow_work::{FlowWork, MOST_PACKETS};
use handover_words::{NotYet, Shelf, ShelfEnd, ShelfSeat, WordShelf};
use packet_fields::{PacketInfo, RunName};
use std::sync::Wait;
use std::thread;
use std::thread::Threads;

// Works the packet of a place, as soon as the table lies on the shelf at that place.
fn work_at<R: Wait, W: FlowWork, N: RunName>(
    rt: &R,
    end: &mut ShelfEnd<'_, BucketTable<W>, N>,
    work: &W,
    packet: &PacketInfo,
    bucket: u16,
    place: u32,
)
    requires range { bucket < end.old.history.buckets }
    requires room { place < MOST_PACKETS }
    requires free { end.old.history.held ≡ [] }
    requires packet { IsPacketAt N.packets end.old.history.key end.old.history.buckets bucket place packet.now }
    ensures home { end.new.home ≡ end.old.home }
    ensures run { (end.new.history.key ≡ end.old.history.key) × (end.new.history.buckets ≡ end.old.history.buckets) }
    ensures free { end.new.history.held ≡ [] }
{
    for _ in rt.forever() {
        if work_one::<W, N, _>(end, work, packet, bucket, place).is_ok() {
            return;
        }
        thread::yield_now();
    }
    unreachable!()
}

// Works the packets at the places with this remainder by two, each in its turn.
fn every_other<R: Wait, W: FlowWork, N: RunName>(
    rt: &R,
    shelf: &WordShelf<BucketTable<W>, N>,
    seat: ShelfSeat<BucketTable<W>>,
    work: &W,
    packets: &[PacketInfo],
    bucket: u16,
    remainder: usize,
) -> ShelfSeat<BucketTable<W>>
    requires seat { IsFreeSeat shelf.now seat }
    requires range { bucket < shelf.now.run.buckets }
    requires count { length packets.now ≤ MOST_PACKETS }
    requires packets { AreFirstOf N.packets shelf.now.run.key shelf.now.run.buckets bucket packets.now }
    ensures { IsFreeSeat shelf.now result }
{
    let mut end = shelf.end(seat);
    for place in 0..packets.len() {
        if place % 2 == remainder {
            work_at(rt, &mut end, work, &packets[place], bucket, place as u32);
        }
    }
    end.into_seat()
}

// Both threads.
fn in_two_threads<R: Threads + Wait + Sync, W: FlowWork + Sync, N: RunName + Sync>(
    rt: &R,
    shelf: &WordShelf<BucketTable<W>, N>,
    one: ShelfSeat<BucketTable<W>>,
    other: ShelfSeat<BucketTable<W>>,
    work: &W,
    packets: &[PacketInfo],
    bucket: u16,
) -> (ShelfSeat<BucketTable<W>>, ShelfSeat<BucketTable<W>>)
    requires seats { IsFreeSeat shelf.now one × IsFreeSeat shelf.now other }
    requires range { bucket < shelf.now.run.buckets }
    requires count { length packets.now ≤ MOST_PACKETS }
    requires packets { AreFirstOf N.packets shelf.now.run.key shelf.now.run.buckets bucket packets.now }
    ensures { IsFreeSeat shelf.now result.0 × IsFreeSeat shelf.now result.1 }
{
    thread::join(
        rt,
        move ||
            requires seat { IsFreeSeat shelf.now one }
            requires range { bucket < shelf.now.run.buckets }
            requires count { length packets.now ≤ MOST_PACKETS }
            requires packets { AreFirstOf N.packets shelf.now.run.key shelf.now.run.buckets bucket packets.now }
        { every_other(rt, shelf, one, work, packets, bucket, 0) },
        move ||
            requires seat { IsFreeSeat shelf.now other }
            requires range { bucket < shelf.now.run.buckets }
            requires count { length packets.now ≤ MOST_PACKETS }
            requires packets { AreFirstOf N.packets shelf.now.run.key shelf.now.run.buckets bucket packets.now }
        { every_other(rt, shelf, other, work, packets, bucket, 1) },
    )
}

/// Has two threads work the first packets of a bucket in turn, each every other one, and takes the
/// bucket's table behind the last. For each packet a thread waits until the table lies on the shelf
/// at the packet's place, claims it, works the packet, and puts the table back. `NotYet` comes where
/// the table isn't there behind the last packet, since another end of the shelf has claimed it.
pub fn work_in_turn<R: Threads + Wait + Sync, W: FlowWork + Sync, N: RunName + Sync>(
    rt: &R,
    shelf: &WordShelf<BucketTable<W>, N>,
    one: ShelfSeat<BucketTable<W>>,
    other: ShelfSeat<BucketTable<W>>,
    work: &W,
    packets: &[PacketInfo],
    bucket: u16,
) -> Result<BucketTable<W>, NotYet>
    requires seats { IsFreeSeat shelf.now one × IsFreeSeat shelf.now other }
    requires range { bucket < shelf.now.run.buckets }
    requires count { length packets.now ≤ MOST_PACKETS }
    requires packets { AreFirstOf N.packets shelf.now.run.key shelf.now.run.buckets bucket packets.now }
    ensures { IfOk result (λ t. IsTableOf W.opening W.after N.packets shelf.now.run.key shelf.now.run.buckets bucket (length packets.now) t) }
{
    let (one, _other) = in_two_threads(rt, shelf, one, other, work, packets, bucket);
    let mut end = shelf.end(one);
    end.claim(bucket, packets.len() as u32)
}
