ghost use Rattle.std.specs.Prelude.{◌≡◌, ◌≤◌, ◌<◌, ◌+◌, ◌*◌, ◌++◌, ◌∷◌, [], List, ℕ, length, false, None, Some, IsTrue, IsSome, IfSome, IfOk, OnOk, OnErr, unwrap_or, slice_get};
ghost use Rattle.indexmap.specs.IndexMap.{insert_entry};
ghost use Rattle.packet_fields.specs.declared.packet.PacketInfo.{PacketInfo};
ghost use Rattle.bucket_table.specs.Kept.{AllWithin, state_at};

use crate::custody::Begun;
use crate::{Custody, FlowHashKey};
use flow_work::{FlowWork, MOST_PACKETS};
use indexmap::IndexMap;
use packet_fields::{FlowKey, PacketInfo};
use rss_base::NoMemory;
use std::alloc::Global;
use std::marker::Model;

#[cfg(test)]
mod tests;

/// The flows of one bucket.
#[derive(Drop)]
pub struct BucketTable<W: FlowWork> {
    bucket: u16,
    flows: Box<IndexMap<FlowKey, W::State, FlowHashKey>>,
    done: u32,
    bytes: u64,
    short: bool,
    custody: Option<Begun>,
}

impl<W: FlowWork> Model for BucketTable<W> {
    ghost use Rattle.bucket_table.specs.Table.{TableOf};
    ghost use Rattle.bucket_table.specs.Kept.{IsSoundTable};

    ghost Value = { TableOf W.State };

    ghost view = { λ t. record {
      bucket = t.bucket;
      flows = t.flows.value.entries;
      done = t.done;
      bytes = t.bytes;
      short = t.short;
      custody = t.custody;
    } };

    ghost invariant = { λ t. IsSoundTable W.stands_for t.flows.value.entries t.done t.bytes };
}

// Works a packet into its flow, by one look-up, unless memory was refused before. Answers whether
// memory is short now, and then the flows stay as they were.
fn work_flow<W: FlowWork>(
    short: bool,
    flows: &mut IndexMap<FlowKey, W::State, FlowHashKey>,
    work: &W,
    packet: &PacketInfo,
) -> bool
    requires { (done : ℕ) × (done < MOST_PACKETS)
        × AllWithin W.stands_for done flows.old.entries }
    ensures stays_short { IsTrue short → IsTrue result }
    ensures refused { IsTrue result → flows.new.entries ≡ flows.old.entries }
    ensures worked { result ≡ false → flows.new.entries ≡
        insert_entry ⟦<FlowKey as PartialEq>⟧.eq flows.old.entries packet.now.key
        (W.after (state_at ⟦<FlowKey as PartialEq>⟧.eq W.opening flows.old.entries packet.now.key) packet.now) }
    ensures more { result ≡ false → (k : ℕ) → k < MOST_PACKETS
        → W.stands_for (state_at ⟦<FlowKey as PartialEq>⟧.eq W.opening flows.old.entries packet.now.key) k
        → W.stands_for (W.after (state_at ⟦<FlowKey as PartialEq>⟧.eq W.opening flows.old.entries packet.now.key) packet.now) (k + 1) }
    ensures none { result ≡ false → W.stands_for W.opening 0 }
{
    if short {
        return true;
    }
    match flows.entry(packet.key) {
        Ok(entry) => {
            let state = entry.or_insert(work.begin());
            *state = work.step(*state, packet);
            false
        }
        Err(_) => true,
    }
}

impl<W: FlowWork> BucketTable<W> {
    ghost use Rattle.std.specs.List.{IsDistinct};
    ghost use Rattle.std.specs.Map.{keys_of};
    ghost use Rattle.bucket_table.specs.FirstKeys.{same_key};
    ghost use Rattle.bucket_table.specs.Table.{StandsFor, empty_table, custody_until};

    /// The table of a bucket without packets. It takes memory for the key by which it hashes, and
    /// more as flows come. Contracts see nothing of the key: flows stand in the order of their first
    /// packets under any.
    pub fn new(
        alloc: Global,
        bucket: u16,
        hashing: &FlowHashKey,
    ) -> Result<BucketTable<W>, NoMemory>
        ensures empty { IfOk result (λ table. table ≡ empty_table bucket) }
        ensures stands { IfOk result (StandsFor W.opening W.after []) }
    {
        let Ok(flows) = Box::new(alloc, IndexMap::with_hasher(alloc, *hashing)) else {
            return Err(NoMemory);
        };
        Ok(BucketTable {
            bucket,
            flows,
            done: 0,
            bytes: 0,
            short: false,
            custody: None,
        })
    }

    /// A core takes the bucket, from the next packet on.
    pub fn begin_custody(&mut self, core: u8)
        requires { self.old.custody ≡ None }
        ensures { self.new ≡
            record self.old { custody = Some (record { core = core; from = self.old.done }) } }
    {
        self.custody = Some(Begun {
            core,
            from: self.done,
        });
    }

    /// Works the packet at `place` in its bucket, from 0, which has to be the next. Where memory is
    /// refused the table is short from then on: it still counts packets and bytes, and its flows say
    /// nothing.
    pub fn work(&mut self, work: &W, packet: &PacketInfo, place: u32)
        requires next { place ≡ self.old.done }
        requires room { self.old.done < MOST_PACKETS }
        requires open { IsSome self.old.custody }
        ensures done { self.new.done ≡ self.old.done + 1 }
        ensures bytes { self.new.bytes ≡ self.old.bytes + packet.now.original }
        ensures bucket { self.new.bucket ≡ self.old.bucket }
        ensures custody { self.new.custody ≡ self.old.custody }
        ensures stays_short { IsTrue self.old.short → IsTrue self.new.short }
        ensures stands { (packets : List PacketInfo) → StandsFor W.opening W.after packets self.old
            → self.new.short ≡ false
            → StandsFor W.opening W.after (packets ++ packet.now ∷ []) self.new }
    {
        let length = packet.original;
        self.short = work_flow(self.short, &mut *self.flows, work, packet);
        self.done += 1;
        self.bytes += u64::from(length);
    }

    /// The core gives the bucket up. Answers which core had it, from which packet of the bucket to
    /// which.
    pub fn end_custody(&mut self) -> Custody
        requires { IsSome self.old.custody }
        ensures closed { self.new ≡ record self.old { custody = None } }
        ensures answer { IfSome self.old.custody (λ begun. result ≡ custody_until begun self.old) }
    {
        let begun = self.custody.take().unwrap();
        Custody {
            bucket: self.bucket,
            core: begun.core,
            from: begun.from,
            to: self.done,
        }
    }

    /// The bucket that the table is of.
    pub fn bucket(&self) -> u16
        ensures { result ≡ self.now.bucket }
    {
        self.bucket
    }

    /// How many packets are done.
    pub fn done(&self) -> u32
        ensures { result ≡ self.now.done }
    {
        self.done
    }

    /// The lengths of the done packets on the wire added up.
    pub fn bytes(&self) -> u64
        ensures value { result ≡ self.now.bytes }
        ensures bound { self.now.bytes ≤ self.now.done * 4294967295 }
    {
        self.bytes
    }

    /// Whether memory was refused, so that the flows say nothing.
    pub fn short(&self) -> bool
        ensures { result ≡ self.now.short }
    {
        self.short
    }

    /// How many flows there are, of which no two have one key.
    pub fn flow_count(&self) -> usize
        ensures value { result ≡ length self.now.flows }
        ensures bound { length self.now.flows ≤ self.now.done }
        ensures once { IsDistinct same_key (keys_of self.now.flows) }
    {
        self.flows.len()
    }

    /// The flow at an index and its state. Flows are in the order of their first packets.
    pub fn flow(&self, index: usize) -> (&FlowKey, &W::State)
        requires { index < length self.now.flows }
        ensures { slice_get self.now.flows index ≡ Some (result.0.now, result.1.now) }
    {
        self.flows.get_index(index).unwrap()
    }
}
