ghost use Rattle.std.specs.Prelude.{◌≡◌, IsTrue, length};
ghost use Rattle.bucket_table.specs.Table.{TableOf};
ghost use Rattle.worker_loop.specs.Workload.{workload};
ghost use Rattle.dispatch_loop.specs.DispatcherState.{dispatcher_state_by};
ghost use Rattle.dispatch_loop.specs.Stays.{IsTied};
ghost use Rattle.run_shifts.specs.DispatcherTurns.{Leads, HasFinished};
ghost use Rattle.run_shifts.specs.Parties.{party_snapshot, party_state_by, SameEnds};
ghost use Rattle.run_shifts.specs.WorkerParties.{AreWorkerParties, HaveEnded};

use crate::dispatcher_party::DispatcherParty;
use crate::round::one_round;
use crate::shared_objects::SharedObjects;
use crate::worker_party::WorkerParty;
use bucket_table::BucketTable;
use dispatch_loop::DispatcherEnd;
use flow_work::FlowWork;
use packet_fields::RunName;
use rss_base::{Gate, Source};
use std::sync::Wait;
use std::thread::Threads;
use worker_loop::Worker;

fn all_ended<K, T>(worker_parties: &Vec<WorkerParty<K, T>>) -> bool
    ensures { IsTrue result → HaveEnded worker_parties.now.items }
{
    for worker_party in worker_parties.iter() {
        if !worker_party.ended {
            return false;
        }
    }
    true
}

/// Shifts of all parties until the dispatcher has finished and all workers have ended. Answers how
/// the stream ended. That it returns isn't claimed.
pub fn run_shifts<
    'a,
    W: FlowWork + Send + Sync + Drop,
    N: RunName + Send + Sync + Drop,
    S: Source,
    G: Gate + Sync,
    R: Threads + Wait + Sync,
>(
    rt: &R,
    shared: &SharedObjects<W, N>,
    work: &W,
    gate: &G,
    source: &mut S,
    mut worker_parties: Vec<WorkerParty<Worker<W>, BucketTable<W>>>,
    dispatcher_party: &mut DispatcherParty<'a, W, N, R>,
) -> (Vec<WorkerParty<Worker<W>, BucketTable<W>>>, DispatcherEnd)
    requires worker_parties { AreWorkerParties (workload W.opening W.after W.cost_of N.packets) shared.now worker_parties.items }
    requires tied { IsTied N.packets (party_snapshot {T = TableOf W.State} (party_state_by W.cost_of dispatcher_party.old) (S.left source.old) (S.faults source.old)) }
    ensures worker_parties { AreWorkerParties (workload W.opening W.after W.cost_of N.packets) shared.now result.0.items }
    ensures count { length result.0.items ≡ length worker_parties.items }
    ensures leads { Leads N.packets (party_snapshot {T = TableOf W.State} (party_state_by W.cost_of dispatcher_party.old) (S.left source.old) (S.faults source.old)) (party_snapshot (party_state_by W.cost_of dispatcher_party.new) (S.left source.new) (S.faults source.new)) }
    ensures finished { HasFinished result.1 (dispatcher_state_by W.cost_of dispatcher_party.new.dispatcher) }
    ensures ends { SameEnds (party_state_by W.cost_of dispatcher_party.old) (party_state_by W.cost_of dispatcher_party.new) }
    ensures origin { S.origin source.new ≡ S.origin source.old }
    ensures ended { HaveEnded result.0.items }
{
    for _ in rt.forever() {
        let (next, end) = one_round(
            rt,
            shared,
            work,
            gate,
            source,
            worker_parties,
            dispatcher_party,
        );
        worker_parties = next;
        if let Some(end) = end {
            if all_ended(&worker_parties) {
                return (worker_parties, end);
            }
        }
    }
    unreachable!()
}
