ghost use Rattle.std.specs.Prelude.{◌≡◌, IfSome, length};
ghost use Rattle.bucket_table.specs.Table.{TableOf};
ghost use Rattle.worker_loop.specs.Workload.{workload};
ghost use Rattle.dispatch_loop.specs.DispatcherState.{dispatcher_state_by};
ghost use Rattle.dispatch_loop.specs.Stays.{IsTied};
ghost use Rattle.run_shifts.specs.DispatcherTurns.{Leads, HasFinished};
ghost use Rattle.run_shifts.specs.Lends.{MayLend, Lent};
ghost use Rattle.run_shifts.specs.Parties.{party_snapshot, party_state_by, SameEnds};
ghost use Rattle.run_shifts.specs.WorkerParties.{AreWorkerParties};

use crate::all_shifts::shifts;
use crate::dispatcher_party::{DispatcherParty, dispatch_shift};
use crate::shared_objects::SharedObjects;
use crate::worker_party::WorkerParty;
use bucket_table::BucketTable;
use dispatch_loop::DispatcherEnd;
use flow_work::FlowWork;
use packet_fields::RunName;
use rss_base::{Gate, Source};
use std::sync::Wait;
use std::thread::Threads;
use worker_loop::Worker;

// Does nothing, but ties a reference that comes back to the one that was lent.
fn take_back<T>(x: &mut T)
    ensures { x.new ≡ x.old }
{}

// A shift of each core in a thread of its own, while the caller calls f with what it is lent. Here
// the type of the dispatcher's party is a parameter: a reference to a type that names a lifetime isn't tied to the
// one that comes back. The parameters of f stand first, since the check refuses them further behind.
fn round_with<
    D,
    S,
    A,
    F: Fn(&mut D, &mut S) -> A,
    W: FlowWork + Send + Sync + Drop,
    N: RunName + Send + Sync + Drop,
    G: Gate + Sync,
    R: Threads + Wait + Sync,
>(
    rt: &R,
    shared: &SharedObjects<W, N>,
    work: &W,
    gate: &G,
    source: &mut S,
    worker_parties: Vec<WorkerParty<Worker<W>, BucketTable<W>>>,
    dispatcher_party: &mut D,
    f: &F,
) -> (Vec<WorkerParty<Worker<W>, BucketTable<W>>>, A)
    requires worker_parties { AreWorkerParties (workload W.opening W.after W.cost_of N.packets) shared.now worker_parties.items }
    requires may { MayLend (λ p q. F.pre f.now p q) dispatcher_party.old source.old }
    ensures worker_parties { AreWorkerParties (workload W.opening W.after W.cost_of N.packets) shared.now result.0.items }
    ensures count { length result.0.items ≡ length worker_parties.items }
    ensures lent { Lent (λ p q r p' q'. F.post f.now p q r p' q') dispatcher_party.old source.old result.1 dispatcher_party.new source.new }
{
    let (worker_parties, (dispatcher_party, source, answer)) = shifts(
        rt,
        shared,
        work,
        gate,
        worker_parties,
        move || -> (&mut D, &mut S, A)
            requires { MayLend (λ p q. F.pre f.now p q) dispatcher_party.now source.now }
            ensures name { (result.0.ghost_name ≡ dispatcher_party.entry.ghost_name) × (result.1.ghost_name ≡ source.entry.ghost_name) }
            ensures lent { Lent (λ p q r p' q'. F.post f.entry.now p q r p' q') dispatcher_party.entry.now source.entry.now result.2 result.0.now result.1.now }
        {
            let answer = f(dispatcher_party, source);
            (dispatcher_party, source, answer)
        },
    );
    take_back(dispatcher_party);
    take_back(source);
    (worker_parties, answer)
}

/// One shift of each party: the dispatcher's on the caller's thread, the workers' in threads.
pub(crate) fn one_round<
    'a,
    W: FlowWork + Send + Sync + Drop,
    N: RunName + Send + Sync + Drop,
    S: Source,
    G: Gate + Sync,
    R: Threads + Wait + Sync,
>(
    rt: &R,
    shared: &SharedObjects<W, N>,
    work: &W,
    gate: &G,
    source: &mut S,
    worker_parties: Vec<WorkerParty<Worker<W>, BucketTable<W>>>,
    dispatcher_party: &mut DispatcherParty<'a, W, N, R>,
) -> (
    Vec<WorkerParty<Worker<W>, BucketTable<W>>>,
    Option<DispatcherEnd>,
)
    requires worker_parties { AreWorkerParties (workload W.opening W.after W.cost_of N.packets) shared.now worker_parties.items }
    requires tied { IsTied N.packets (party_snapshot {T = TableOf W.State} (party_state_by W.cost_of dispatcher_party.old) (S.left source.old) (S.faults source.old)) }
    ensures worker_parties { AreWorkerParties (workload W.opening W.after W.cost_of N.packets) shared.now result.0.items }
    ensures count { length result.0.items ≡ length worker_parties.items }
    ensures leads { Leads N.packets (party_snapshot {T = TableOf W.State} (party_state_by W.cost_of dispatcher_party.old) (S.left source.old) (S.faults source.old)) (party_snapshot (party_state_by W.cost_of dispatcher_party.new) (S.left source.new) (S.faults source.new)) }
    ensures finished { IfSome result.1 (λ end. HasFinished end (dispatcher_state_by W.cost_of dispatcher_party.new.dispatcher)) }
    ensures ends { SameEnds (party_state_by W.cost_of dispatcher_party.old) (party_state_by W.cost_of dispatcher_party.new) }
    ensures origin { S.origin source.new ≡ S.origin source.old }
{
    round_with(
        rt,
        shared,
        work,
        gate,
        source,
        worker_parties,
        dispatcher_party,
        &|dispatcher_party: &mut DispatcherParty<'_, W, N, R>, source: &mut S| -> Option<
            DispatcherEnd,
        >
            requires { IsTied N.packets (party_snapshot {T = TableOf W.State} (party_state_by W.cost_of dispatcher_party.old) (S.left source.old) (S.faults source.old)) }
            ensures leads { Leads N.packets (party_snapshot {T = TableOf W.State} (party_state_by W.cost_of dispatcher_party.old) (S.left source.old) (S.faults source.old)) (party_snapshot (party_state_by W.cost_of dispatcher_party.new) (S.left source.new) (S.faults source.new)) }
            ensures finished { IfSome result (λ end. HasFinished end (dispatcher_state_by W.cost_of dispatcher_party.new.dispatcher)) }
            ensures ends { SameEnds (party_state_by W.cost_of dispatcher_party.old) (party_state_by W.cost_of dispatcher_party.new) }
            ensures origin { S.origin source.new ≡ S.origin source.old }
        { dispatch_shift(rt, dispatcher_party, work, source) },
    )
}
