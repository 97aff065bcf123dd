// What a worker does, by hand.
ghost use Rattle.std.specs.Prelude.{◌≡◌, ◌≤◌, ◌<◌, ℕ, None, length, map, IfSome};
ghost use Rattle.toeplitz.specs.declared.key.Key.{Key};
ghost use Rattle.flow_work.specs.Count.{no_packets, counted};
ghost use Rattle.core_queue.specs.Seen.{IsLoose};
ghost use Rattle.dispatch_loop.specs.Borne.{AreSentSame};
ghost use Rattle.handover_words.specs.Stands.{IsTableOf};

use bucket_table::BucketTable;
use core_queue::{Item, LaneIn};
use flow_work::Count;
use packet_fields::{Class, FlowKey, PacketInfo, RunName};

// A frame without an IPv4 packet: its hash is 0, so it is in bucket 0.
const FRAME: PacketInfo = PacketInfo {
    key: FlowKey {
        class: Class::Other,
        source: 0,
        destination: 0,
        source_port: 0,
        destination_port: 0,
        protocol: 0,
    },
    nanos: 0,
    original: 60,
    flags: 0,
};

/// Works packets of bucket 0 in its table until so many are done.
pub(crate) fn work_until(table: &mut BucketTable<Count>, done: u32)
    requires before { table.old.done ≤ done }
    requires closed { table.old.custody ≡ None }
    ensures { (key : Key) (buckets : ℕ) → IsTableOf no_packets counted None key buckets 0 table.old.done table.old → IsTableOf no_packets counted None key buckets 0 done table.new }
{
    table.begin_custody(0);
    for place in table.done()..done {
        table.work(&Count, &FRAME, place);
    }
    let _ended = table.end_custody();
}

/// Takes the next item of one of the lanes.
pub(crate) fn take_from<N: RunName, L: LaneIn<N>>(lanes: &mut [L], core: usize) -> Option<Item>
    requires { core < length lanes.old }
    ensures sent { AreSentSame (map L.history lanes.old) (map L.history lanes.new) }
    ensures loose { IfSome result IsLoose }
{
    let lane = &mut lanes[core];
    lane.take()
}
