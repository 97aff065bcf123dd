// All parties of a run, from their start to their end.
ghost use Rattle.std.specs.Prelude.{◌≡◌, ◌≤◌, [], length, map, vec_capacity, IfOk, IfErr, Err, Some};
ghost use Rattle.core_queue.specs.RuledLane.{AtLane};
ghost use Rattle.worker_loop.specs.Workload.{workload};
ghost use Rattle.dispatch_loop.specs.Accepted.{IsAccepted};
ghost use Rattle.dispatch_loop.specs.DispatcherState.{dispatcher_state_by};
ghost use Rattle.dispatch_loop.specs.OptionsView.{OptionsView};
ghost use Rattle.dispatch_loop.specs.Past.{AreNamed};
ghost use Rattle.dispatch_loop.specs.Rules.{BlamesRead};
ghost use Rattle.dispatch_loop.specs.Terms.{terms_of};
ghost use Rattle.rsspp_run.specs.Refused.{Refuses, Blames};
ghost use Rattle.run_shifts.specs.WorkerParties.{AreWorkerParties, HaveEnded};
ghost use Rattle.threaded_run.specs.Parties.{AreParties, HasRun, IsBack};

use crate::lanes::ends_of;
use crate::opening::{Shared, open_shared, open_worker_parties};
use crate::rooms::list_for;
use balancer::Balancer;
use bucket_table::{BucketTable, FlowHashKey};
use core_queue::SenderPass;
use dispatch_loop::{Dispatcher, DispatcherEnd, Options, policy_of};
use flow_work::FlowWork;
use handover_words::ShelfSeat;
use load_meter::MeterSeat;
use packet_fields::RunName;
use packet_pool::PoolPass;
use pcap_reader::Reader;
use rss_base::{Gate, NoMemory, Source};
use rsspp_run::RunFault;
use run_shifts::{DispatcherParty, SharedObjects, WorkerParty, run_shifts};
use std::alloc::Global;
use std::sync::Wait;
use std::thread::Threads;
use worker_loop::Worker;

/// The parties of a run before their first shift: the dispatcher with the passes and seats of its
/// ends, and the worker's party of each core.
#[derive(Drop)]
pub(crate) struct Parties<W: FlowWork> {
    pub(crate) dispatcher: Dispatcher<W, Balancer>,
    pub(crate) senders: Vec<SenderPass>,
    pub(crate) seat: ShelfSeat<BucketTable<W>>,
    pub(crate) load: MeterSeat,
    pub(crate) cells: PoolPass,
    pub(crate) worker_parties: Vec<WorkerParty<Worker<W>, BucketTable<W>>>,
}

/// What all parties share, and the parties.
pub(crate) fn open<W: FlowWork + Drop, N: RunName + Drop, R: Wait>(
    rt: &R,
    alloc: Global,
    options: &Options,
    hashing: &FlowHashKey,
) -> Result<(SharedObjects<W, N>, Parties<W>), NoMemory>
    requires { IsAccepted options.now }
    ensures { IfOk result (λ r. AreParties (workload W.opening W.after W.cost_of N.packets) (terms_of W.cost_of options.now) r.0 (dispatcher_state_by W.cost_of r.1.dispatcher) r.1.senders.items r.1.seat r.1.load r.1.cells r.1.worker_parties.items) }
{
    let policy = policy_of(alloc, options)?;
    let dispatcher = Dispatcher::new(alloc, options, policy)?;
    let Shared {
        shared,
        senders,
        takers,
        cells,
        own_cells,
        mut seat,
        mut load,
    } = open_shared::<W, N, R>(rt, alloc, options, hashing)?;
    let worker_parties = open_worker_parties(
        alloc,
        &shared,
        &options.key,
        options.start.buckets(),
        takers,
        cells,
        &mut seat,
        &mut load,
    )?;
    let parties = Parties {
        dispatcher,
        senders,
        seat,
        load,
        cells: own_cells,
        worker_parties,
    };
    Ok((shared, parties))
}

/// What the parties leave behind their last shift, and how the stream ended.
#[derive(Drop)]
pub(crate) struct Ran<W: FlowWork> {
    pub(crate) dispatcher: Dispatcher<W, Balancer>,
    pub(crate) senders: Vec<SenderPass>,
    pub(crate) seat: ShelfSeat<BucketTable<W>>,
    pub(crate) worker_parties: Vec<WorkerParty<Worker<W>, BucketTable<W>>>,
    pub(crate) end: DispatcherEnd,
}

/// Starts the reader and has all parties run until each has ended. The passes of the lanes come back
/// in a list that has room for them. Want of memory is told before the first read.
pub(crate) fn run_parties<
    N: RunName + Send + Sync + Drop,
    S: Source,
    W: FlowWork + Send + Sync + Drop,
    G: Gate + Sync,
    R: Threads + Wait + Sync,
>(
    rt: &R,
    alloc: Global,
    shared: &SharedObjects<W, N>,
    work: &W,
    gate: &G,
    source: &mut S,
    parties: Parties<W>,
    mut passes: Vec<SenderPass>,
) -> Result<Ran<W>, RunFault>
    requires parties { (options : OptionsView) × IsAccepted options × AreParties (workload W.opening W.after W.cost_of N.packets) (terms_of W.cost_of options) shared.now (dispatcher_state_by W.cost_of parties.dispatcher) parties.senders.items parties.seat parties.load parties.cells parties.worker_parties.items × AreNamed N.packets options.packets (S.left source.old) }
    requires passes { (passes.items ≡ []) × (length parties.senders.items ≤ vec_capacity passes) }
    ensures worker_parties { IfOk result (λ r. AreWorkerParties (workload W.opening W.after W.cost_of N.packets) shared.now r.worker_parties.items × HaveEnded r.worker_parties.items × (length r.worker_parties.items ≡ length parties.worker_parties.items)) }
    ensures back { IfOk result (λ r. IsBack shared.now parties.senders.items parties.seat r.senders.items r.seat) }
    ensures run { IfOk result (λ r. HasRun N.packets (dispatcher_state_by W.cost_of parties.dispatcher).terms (S.left source.old) r.end (dispatcher_state_by W.cost_of r.dispatcher) (map (λ (p : AtLane). p.history) r.senders.items) (S.left source.new)) }
    ensures blames { IfOk result (λ r. BlamesRead (Some r.end) (S.faults source.old) (S.faults source.new)) }
    ensures refused { IfErr result (λ fault. Refuses (dispatcher_state_by W.cost_of parties.dispatcher).terms.packets (S.left source.old) (S.left source.new) fault) }
    ensures early { result ≡ Err RunFault.NoMemory → source.new ≡ source.old }
    ensures cause { IfErr result (λ fault. Blames fault (S.faults source.old) (S.faults source.new)) }
    ensures origin { S.origin source.new ≡ S.origin source.old }
{
    let Parties {
        dispatcher,
        senders,
        seat,
        load,
        cells,
        worker_parties,
    } = parties;
    let mut lanes = list_for(alloc, senders.len())?;
    ends_of(rt, &shared.lanes, senders, &mut lanes);
    let reader = Reader::start(alloc, source)?;
    let mut dispatcher_party = DispatcherParty {
        dispatcher,
        reader,
        lanes,
        shelf: shared.shelf.end(seat),
        pool: shared.pool.end(rt, cells),
        meter: shared.meter.end(load),
    };
    let (worker_parties, end) = run_shifts(
        rt,
        shared,
        work,
        gate,
        source,
        worker_parties,
        &mut dispatcher_party,
    );
    let (dispatcher, seat) = dispatcher_party.leave(&mut passes);
    Ok(Ran {
        dispatcher,
        senders: passes,
        seat,
        worker_parties,
        end,
    })
}
