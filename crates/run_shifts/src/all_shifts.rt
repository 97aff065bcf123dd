ghost use Rattle.std.specs.Prelude.{◌≡◌, ℕ, Some, length, vec_capacity, slice_get};
ghost use Rattle.worker_loop.specs.Workload.{workload};
ghost use Rattle.run_shifts.specs.declared.worker_party.WorkerParty.{WorkerParty};
ghost use Rattle.run_shifts.specs.WorkerParties.{IsWorkerParty, AreWorkerParties};

use crate::jobs::beside;
use crate::one_shift::work_shift;
use crate::shared_objects::SharedObjects;
use crate::worker_party::WorkerParty;
use bucket_table::BucketTable;
use flow_work::FlowWork;
use packet_fields::RunName;
use rss_base::Gate;
use std::sync::Wait;
use std::thread::Threads;
use worker_loop::Worker;

// `beside` at the workers' parties. Here the types of a worker and of a table are parameters, so that what goes to
// threads is found to be `Send` in two small steps.
fn at_worker_parties<
    K: Send + Drop,
    T: Send + Drop,
    F: Fn(WorkerParty<K, T>) -> WorkerParty<K, T> + Sync,
    R: Threads + Sync,
    B,
    O: FnOnce() -> B + Drop,
>(rt: &R, worker_parties: Vec<WorkerParty<K, T>>, f: &F, own: O) -> (Vec<WorkerParty<K, T>>, B)
    requires worker_parties { (i : ℕ) (p : WorkerParty K T) → slice_get worker_parties.items i ≡ Some p → F.pre f.now p }
    requires own { O.pre own }
    ensures count { length result.0.items ≡ length worker_parties.items }
    ensures room { vec_capacity result.0 ≡ vec_capacity worker_parties }
    ensures worker_parties { (i : ℕ) (r : WorkerParty K T) → slice_get result.0.items i ≡ Some r → (p : WorkerParty K T) × (slice_get worker_parties.items i ≡ Some p) × F.post f.now p r }
    ensures own { O.post own result.1 }
{
    beside(rt, worker_parties, f, own)
}

/// A shift of each core in a thread of its own, while the caller does its own part.
pub(crate) fn shifts<
    W: FlowWork + Send + Sync + Drop,
    N: RunName + Send + Sync + Drop,
    G: Gate + Sync,
    R: Threads + Wait + Sync,
    B,
    O: FnOnce() -> B + Drop,
>(
    rt: &R,
    shared: &SharedObjects<W, N>,
    work: &W,
    gate: &G,
    worker_parties: Vec<WorkerParty<Worker<W>, BucketTable<W>>>,
    own: O,
) -> (Vec<WorkerParty<Worker<W>, BucketTable<W>>>, B)
    requires worker_parties { AreWorkerParties (workload W.opening W.after W.cost_of N.packets) shared.now worker_parties.items }
    requires own { O.pre own }
    ensures worker_parties { AreWorkerParties (workload W.opening W.after W.cost_of N.packets) shared.now result.0.items }
    ensures count { length result.0.items ≡ length worker_parties.items }
    ensures room { vec_capacity result.0 ≡ vec_capacity worker_parties }
    ensures own { O.post own result.1 }
{
    at_worker_parties(
        rt,
        worker_parties,
        &|worker_party: WorkerParty<Worker<W>, BucketTable<W>>| -> WorkerParty<
            Worker<W>,
            BucketTable<W>,
        >
            requires { IsWorkerParty (workload W.opening W.after W.cost_of N.packets) shared.now worker_party }
            ensures { (result.core ≡ worker_party.core) × IsWorkerParty (workload W.opening W.after W.cost_of N.packets) shared.entry.now result }
        { work_shift(rt, shared, work, gate, worker_party) },
        own,
    )
}
