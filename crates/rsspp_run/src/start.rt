// The workers of a run and what they share, as it begins.
ghost use Rattle.std.specs.Prelude.{◌≡◌, ◌<◌, ◌+◌, length, IfOk};
ghost use Rattle.dispatch_loop.specs.Accepted.{IsAccepted};
ghost use Rattle.rsspp_run.specs.Opening.{AreNewWorkers, AreNewLanes, IsNew};

use crate::local_run::LocalRun;
use bucket_table::{BucketTable, FlowHashKey};
use core_queue::LocalLane;
use dispatch_loop::Options;
use flow_work::FlowWork;
use handover_words::LocalShelf;
use load_meter::LocalMeter;
use packet_fields::RunName;
use packet_pool::LocalPool;
use rss_base::NoMemory;
use std::alloc::Global;
use toeplitz::Key;
use worker_loop::Worker;

fn new_workers<W: FlowWork>(
    alloc: Global,
    cores: u8,
    key: &Key,
    buckets: u16,
) -> Result<Vec<Worker<W>>, NoMemory>
    ensures { IfOk result (λ workers. AreNewWorkers key.now buckets cores workers.items) }
{
    let Ok(mut workers) = Vec::with_capacity(alloc, cores as usize) else {
        return Err(NoMemory);
    };
    for core in 0..cores {
        workers.push_reserved(Worker::new(alloc, core, key, buckets)?);
    }
    Ok(workers)
}

fn new_lanes<N: RunName>(
    alloc: Global,
    cores: u8,
    room: u32,
    key: &Key,
    buckets: u16,
) -> Result<Vec<LocalLane<N>>, NoMemory>
    requires room { 0 < room }
    requires buckets { 0 < buckets }
    ensures { IfOk result (λ lanes. AreNewLanes key.now buckets room cores lanes.items) }
{
    let Ok(mut lanes) = Vec::with_capacity(alloc, cores as usize) else {
        return Err(NoMemory);
    };
    for _ in 0..cores {
        lanes.push_reserved(LocalLane::new(alloc, room, key, buckets)?);
    }
    Ok(lanes)
}

impl<W: FlowWork, N: RunName> LocalRun<W, N> {
    /// All workers, lanes, and what they share, with the memory for all that is parked and sent. The
    /// tables hash by the numbers handed in.
    pub(crate) fn new(
        alloc: Global,
        options: &Options,
        hashing: &FlowHashKey,
    ) -> Result<LocalRun<W, N>, NoMemory>
        requires { IsAccepted options.now }
        ensures { IfOk result (λ local. IsNew options.now.key (length options.now.start.owners) options.now.cores options.now.pool local) }
    {
        let buckets = options.start.buckets();
        let room = options.pool + 1;
        let workers = new_workers(alloc, options.cores, &options.key, buckets)?;
        let lanes = new_lanes(alloc, options.cores, room, &options.key, buckets)?;
        let shelf = LocalShelf::<BucketTable<W>, N>::new(alloc, &options.key, buckets, hashing)?;
        let pool = LocalPool::new(alloc, options.pool)?;
        let meter = LocalMeter::new(alloc, options.cores)?;
        Ok(LocalRun {
            key: options.key,
            workers,
            lanes,
            shelf,
            pool,
            meter,
        })
    }
}
