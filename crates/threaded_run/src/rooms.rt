// The memory for what a run leaves.
ghost use Rattle.std.specs.Prelude.{◌≡◌, ◌≤◌, [], vec_capacity, IfOk};

use bucket_table::BucketTable;
use core_queue::{LaneNote, SenderPass};
use flow_work::FlowWork;
use rss_base::NoMemory;
use std::alloc::Global;
use worker_loop::Worker;

/// Lists that are empty as the run begins, each with room for what is put there at its end.
#[derive(Drop)]
pub(crate) struct Rooms<W: FlowWork> {
    pub(crate) passes: Vec<SenderPass>,
    pub(crate) notes: Vec<LaneNote>,
    pub(crate) workers: Vec<Worker<W>>,
    pub(crate) tables: Vec<BucketTable<W>>,
}

/// An empty list with room for so many.
pub(crate) fn list_for<T>(alloc: Global, count: usize) -> Result<Vec<T>, NoMemory>
    ensures { IfOk result (λ list. (list.items ≡ []) × (count ≤ vec_capacity list)) }
{
    match Vec::with_capacity(alloc, count) {
        Ok(list) => Ok(list),
        Err(_) => Err(NoMemory),
    }
}

impl<W: FlowWork> Rooms<W> {
    /// Room for what so many cores and buckets leave.
    pub(crate) fn new(alloc: Global, cores: u8, buckets: u16) -> Result<Rooms<W>, NoMemory>
        ensures passes { IfOk result (λ r. (r.passes.items ≡ []) × (cores ≤ vec_capacity r.passes)) }
        ensures notes { IfOk result (λ r. (r.notes.items ≡ []) × (cores ≤ vec_capacity r.notes)) }
        ensures workers { IfOk result (λ r. (r.workers.items ≡ []) × (cores ≤ vec_capacity r.workers)) }
        ensures tables { IfOk result (λ r. (r.tables.items ≡ []) × (buckets ≤ vec_capacity r.tables)) }
    {
        Ok(Rooms {
            passes: list_for(alloc, cores as usize)?,
            notes: list_for(alloc, cores as usize)?,
            workers: list_for(alloc, cores as usize)?,
            tables: list_for(alloc, buckets as usize)?,
        })
    }
}
