// One packet of a bucket at an end of a shelf.
ghost use Rattle.std.specs.Prelude.{◌≡◌, ◌+◌, ◌<◌, ℕ, MatchResult, IsSome};
ghost use Rattle.toeplitz.specs.declared.key.Key.{Key};
ghost use Rattle.handover_words.specs.Stands.{Stands};
ghost use Rattle.handover_words.specs.ShelfHistory.{released, claimed, saw};
ghost use Rattle.shared_ends.specs.Packets.{IsPacketAt};

use bucket_table::BucketTable;
use flow_work::{FlowWork, MOST_PACKETS};
use handover_words::{NotYet, Shelf};
use packet_fields::{PacketInfo, RunName};

// Works the packet that is next in its bucket, of whichever run the table is.
fn work_next<W: FlowWork, N: RunName>(table: &mut BucketTable<W>, work: &W, packet: &PacketInfo)
    requires room { table.old.done < MOST_PACKETS }
    requires open { IsSome table.old.custody }
    ensures done { table.new.done ≡ table.old.done + 1 }
    ensures custody { table.new.custody ≡ table.old.custody }
    ensures stands { (key : Key) (buckets bucket : ℕ)
        → Stands W.opening W.after N.packets key buckets bucket table.old
        → IsPacketAt N.packets key buckets bucket table.old.done packet.now
        → Stands W.opening W.after N.packets key buckets bucket table.new }
{
    let place = table.done();
    table.work(work, packet, place);
}

// Claims the bucket's table at a place, works the packet of that place, and puts it back.
pub(crate) fn work_one<W: FlowWork, N: RunName, H: Shelf<BucketTable<W>, N>>(
    shelf: &mut H,
    work: &W,
    packet: &PacketInfo,
    bucket: u16,
    place: u32,
) -> Result<(), NotYet>
    requires range { bucket < (H.history shelf.old).buckets }
    requires room { place < MOST_PACKETS }
    requires packet { IsPacketAt N.packets (H.history shelf.old).key (H.history shelf.old).buckets bucket place packet.now }
    ensures home { H.home shelf.new ≡ H.home shelf.old }
    ensures history { MatchResult result
        (λ _. H.history shelf.new ≡ released bucket (place + 1) (claimed bucket place (H.history shelf.old)))
        (λ e. H.history shelf.new ≡ saw bucket e.word (H.history shelf.old)) }
{
    let mut table = shelf.claim(bucket, place)?;
    table.begin_custody(0);
    work_next::<W, N>(&mut table, work, packet);
    table.end_custody();
    shelf.release(bucket, place + 1, table);
    Ok(())
}
