// New parties at their ends of what they share.
ghost use Rattle.std.specs.Prelude.{◌≡◌, [], ◌∷◌, length, Some, IfOk};
ghost use Rattle.dispatch_loop.specs.Accepted.{IsAccepted};
ghost use Rattle.dispatch_loop.specs.Past.{AreNamed};
ghost use Rattle.dispatch_loop.specs.Terms.{terms_of};
ghost use Rattle.toeplitz.specs.Bucket.{bucket_hash};
ghost use Rattle.sweep_tests.specs.Opening.{IsForWorker, IsForDispatcher};

use crate::dispatcher_party::DispatcherParty;
use crate::opening::{ForDispatcher, ForWorker, Shared};
use crate::worker_party::WorkerParty;
use core_queue::{RuledLane, SenderEnd};
use dispatch_loop::{Dispatcher, Options, policy_of};
use flow_work::FlowWork;
use packet_fields::RunName;
use pcap_reader::Reader;
use rss_base::{MemorySource, NoMemory};
use std::alloc::Global;
use std::sync::Wait;
use std::test::Fail;
use worker_loop::Worker;

/// A new worker at its ends.
pub(crate) fn worker_party<'a, W: FlowWork + Drop, N: RunName + Drop, R: Wait>(
    rt: &'a R,
    alloc: Global,
    core: u8,
    options: &Options,
    lane: &'a RuledLane<N>,
    shared: &'a Shared<W, N>,
    passes: ForWorker<W>,
) -> Result<WorkerParty<'a, W, N, R>, NoMemory>
    requires { IsForWorker core (bucket_hash options.now.key (length options.now.start.owners)) lane.now shared.now.shelf shared.now.pool shared.now.meter passes.taker passes.seat passes.cells passes.load }
{
    let ForWorker {
        taker,
        seat,
        cells,
        load,
    } = passes;
    let worker = Worker::new(alloc, core, &options.key, options.start.buckets())?;
    Ok(WorkerParty {
        worker,
        lane: lane.taker(rt, taker),
        shelf: shared.shelf.end(seat),
        pool: shared.pool.end(rt, cells),
        meter: shared.meter.end(load),
    })
}

// The dispatcher's ends of both lanes.
fn senders<'a, N: RunName + Drop, R>(
    alloc: Global,
    first: SenderEnd<'a, R, N>,
    second: SenderEnd<'a, R, N>,
) -> Result<Vec<SenderEnd<'a, R, N>>, NoMemory>
    ensures { IfOk result (λ r. r.items ≡ first.entry ∷ second.entry ∷ []) }
{
    let Ok(mut lanes) = Vec::with_capacity(alloc, 2) else {
        return Err(NoMemory);
    };
    lanes.push_reserved(first);
    lanes.push_reserved(second);
    Ok(lanes)
}

/// A new dispatcher at its ends, at the beginning of a capture.
pub(crate) fn dispatcher_party<'a, W: FlowWork + Drop, N: RunName + Drop, R: Wait>(
    rt: &'a R,
    alloc: Global,
    options: &Options,
    bytes: Vec<u8>,
    shared: &'a Shared<W, N>,
    passes: ForDispatcher<W>,
) -> Result<DispatcherParty<'a, W, N, R>, Fail>
    requires accepted { IsAccepted options.now }
    requires cores { options.now.cores ≡ 2 }
    requires named { AreNamed N.packets options.now.packets (Some bytes.items) }
    requires passes { IsForDispatcher (terms_of W.cost_of options.now) shared.now.first shared.now.second shared.now.shelf shared.now.pool shared.now.meter passes.first passes.second passes.seat passes.cells passes.load }
{
    let ForDispatcher {
        first,
        second,
        seat,
        cells,
        load,
    } = passes;
    let policy = policy_of(alloc, options)?;
    let dispatcher = Dispatcher::new(alloc, options, policy)?;
    let mut source = MemorySource::new(bytes, Vec::new(alloc), Vec::new(alloc));
    let reader = Reader::start(alloc, &mut source)?;
    let first_end = shared.first.sender(rt, first);
    let second_end = shared.second.sender(rt, second);
    let lanes = senders(alloc, first_end, second_end)?;
    Ok(DispatcherParty {
        dispatcher,
        reader,
        source,
        lanes,
        shelf: shared.shelf.end(seat),
        pool: shared.pool.end(rt, cells),
        meter: shared.meter.end(load),
    })
}
