// Packets of one bucket.
ghost use Rattle.std.specs.Prelude.{◌≡◌, None, IfOk, length};
ghost use Rattle.toeplitz.specs.declared.key.Key.{Key};
ghost use Rattle.shared_ends.specs.Packets.{IsPacketAt, AreFirstOf};

use packet_fields::{Class, FlowKey, PacketInfo};
use rss_base::NoMemory;
use std::alloc::Global;

// A frame without an IPv4 packet, of this length on the wire. In a run of one bucket it is that
// bucket's packet.
pub(crate) fn frame(original: u32) -> PacketInfo
    ensures { (key : Key) → IsPacketAt None key 1 0 0 result }
{
    PacketInfo {
        key: FlowKey {
            class: Class::Other,
            source: 0,
            destination: 0,
            source_port: 0,
            destination_port: 0,
            protocol: 0,
        },
        nanos: 0,
        original,
        flags: 0,
    }
}

// So many frames, each of another length. In a run of one bucket all of them are its packets.
pub(crate) fn frames(alloc: Global, count: u32) -> Result<Vec<PacketInfo>, NoMemory>
    ensures count { IfOk result (λ frames. length frames.items ≡ count) }
    ensures packets { (key : Key) → IfOk result (λ frames. AreFirstOf None key 1 0 frames.items) }
{
    let Ok(mut all) = Vec::with_capacity(alloc, count as usize) else {
        return Err(NoMemory);
    };
    for original in 0..count {
        all.push_reserved(frame(original));
    }
    Ok(all)
}
