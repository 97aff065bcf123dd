ghost use Rattle.std.specs.Prelude.{◌≡◌, ◌≢◌, ◌∷◌, ◌+◌, ◌-◌, ◌^◌, ◌<◌, [], length, sum_by, IsSome, IsTrue};
ghost use Rattle.packet_pool.specs.Facts.{facts, IsAlone};
ghost use Rattle.packet_pool.specs.Chain.{chain};
ghost use Rattle.handover_core.specs.Legal.{Stand};
ghost use Rattle.core_queue.specs.Cells.{IsAtPlace};
ghost use Rattle.toeplitz.specs.Bucket.{bucket_of};
ghost use Rattle.parked_queue.specs.Parked.{cells_at};
ghost use Rattle.worker_loop.specs.Workload.{workload, Stands, Grew};
ghost use Rattle.worker_loop.specs.Chains.{Goes, packets_to_mark, bytes_to_mark, infos_to_mark, has_mark, behind_mark, cells_worked, trimmed};
ghost use Rattle.worker_loop.specs.Counts.{more};
ghost use Rattle.worker_loop.specs.Views.{context_run, IsSameContext};

use crate::passed::Passed;
use bucket_table::BucketTable;
use flow_work::FlowWork;
use packet_fields::RunName;
use packet_pool::{Cell, Facts, Kind, Link, link};
use parked_queue::Lot;
use rss_base::Gate;
use toeplitz::Key;

/// Where a worker works its cells: who it is, what it parked, and what it is done with.
#[derive(Drop)]
pub(crate) struct WorkerContext {
    pub(crate) core: u8,
    pub(crate) key: Key,
    pub(crate) buckets: u16,
    pub(crate) lot: Lot,
    /// Cells that it is done with, on their way to the pool.
    pub(crate) kept: Link,
    /// How many packets it has worked.
    pub(crate) worked: u64,
    /// The cost of the packets that it has worked.
    pub(crate) cost: u64,
}

impl WorkerContext {
    /// Keeps a cell for the pool.
    pub(crate) fn keep(&mut self, cell: Box<Cell>)
        requires { IsAlone cell.value }
        ensures kept { chain self.new.kept ≡ facts cell.value ∷ chain self.old.kept }
        ensures rest { self.new ≡ record self.old { kept = self.new.kept } }
    {
        let behind = self.kept.take();
        self.kept = Some(link(cell, behind));
    }

    /// Works a packet, which is next in its bucket's table, behind the gate.
    pub(crate) fn work<N: RunName, W: FlowWork>(
        &mut self,
        work: &W,
        table: &mut BucketTable<W>,
        packet: &Facts,
        passed: Passed,
    )
        requires passed { passed ≡ record { core = self.old.core; worked = self.old.worked } }
        requires place { packet.now.place ≡ table.old.done }
        requires room { packet.now.place < 2 ^ 32 - 1 }
        requires of { bucket_of self.old.key self.old.buckets packet.now.info ≡ packet.now.bucket }
        requires carries { IsAtPlace N.packets self.old.key self.old.buckets packet.now }
        requires open { IsSome table.old.custody }
        requires stands { Stands (workload W.opening W.after W.cost_of N.packets) (context_run self.old) packet.now.bucket table.old }
        ensures stands { Stands (workload W.opening W.after W.cost_of N.packets) (context_run self.old) packet.now.bucket table.new }
        ensures grew { Grew (workload W.opening W.after W.cost_of N.packets) table.old (packet.now.info ∷ []) table.new }
        ensures done { table.new.done ≡ table.old.done + 1 }
        ensures bytes { table.new.bytes ≡ table.old.bytes + packet.now.info.original }
        ensures stays_short { IsTrue table.old.short → IsTrue table.new.short }
        ensures custody { table.new.custody ≡ table.old.custody }
        ensures worked { self.new ≡ record self.old { worked = more self.old.worked 1; cost = more self.old.cost (W.cost_of packet.now.info) } }
    {
        table.work(work, &packet.info, packet.place);
        self.worked = passed.counted();
        self.cost = self.cost.saturating_add(u64::from(work.cost(&packet.info)));
    }

    /// Works the parked cells of a bucket up to the first mark. Answers whether there was one.
    pub(crate) fn work_parked<N: RunName, W: FlowWork, G: Gate>(
        &mut self,
        work: &W,
        bucket: u16,
        table: &mut BucketTable<W>,
        gate: &G,
    ) -> bool
        requires range { bucket < length self.old.lot.cells }
        requires some { cells_at bucket self.old.lot ≢ [] }
        requires open { IsSome table.old.custody }
        requires stands { Stands (workload W.opening W.after W.cost_of N.packets) (context_run self.old) bucket table.old }
        requires goes { (e : Stand) × Goes N.packets (context_run self.old) bucket table.old.done (cells_at bucket self.old.lot) e }
        ensures marked { result ≡ has_mark (cells_at bucket self.old.lot) }
        ensures done { table.new.done ≡ table.old.done + packets_to_mark (cells_at bucket self.old.lot) }
        ensures bytes { table.new.bytes ≡ table.old.bytes + bytes_to_mark (cells_at bucket self.old.lot) }
        ensures stays_short { IsTrue table.old.short → IsTrue table.new.short }
        ensures custody { table.new.custody ≡ table.old.custody }
        ensures stands { Stands (workload W.opening W.after W.cost_of N.packets) (context_run self.old) bucket table.new }
        ensures grew { Grew (workload W.opening W.after W.cost_of N.packets) table.old (infos_to_mark (cells_at bucket self.old.lot)) table.new }
        ensures lot { self.new.lot ≡ trimmed bucket (behind_mark (cells_at bucket self.old.lot)) self.old.lot }
        ensures worked { self.new.worked ≡ more self.old.worked (packets_to_mark (cells_at bucket self.old.lot)) }
        ensures cost { self.new.cost ≡ more self.old.cost (sum_by W.cost_of (infos_to_mark (cells_at bucket self.old.lot))) }
        ensures kept { length (chain self.new.kept) ≡ length (chain self.old.kept) + cells_worked (cells_at bucket self.old.lot) }
        ensures same { IsSameContext self.old self.new }
    {
        let _worked_before = self.worked;
        let _cost_before = self.cost;
        while let Some(cell) = self.lot.take_front(bucket) {
            let is = cell.facts();
            self.keep(cell);
            if let Kind::Mark = is.kind {
                return true;
            }
            let passed = Passed::at(gate, self.core, self.worked);
            self.work::<N, W>(work, table, &is, passed);
        }
        false
    }
}
