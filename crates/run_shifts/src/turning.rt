ghost use Rattle.std.specs.Prelude.{◌≡◌, IsTrue};
ghost use Rattle.worker_loop.specs.declared.worker_turn.WorkerTurn.TheVariants.{Ended};
ghost use Rattle.worker_loop.specs.Workload.{workload};
ghost use Rattle.run_shifts.specs.Work.{IsAtWork, IsDone};

use bucket_table::BucketTable;
use core_queue::LaneIn;
use flow_work::FlowWork;
use handover_words::Shelf;
use load_meter::NoteLoad;
use packet_fields::RunName;
use packet_pool::Pool;
use rss_base::Gate;
use std::sync::Wait;
use std::thread;
use worker_loop::{Worker, WorkerTurn};

/// After so many turns in a row that did nothing, a shift ends.
pub const PATIENCE: u32 = 4096;

// One turn of a worker at ends that serve it alone.
fn one_turn<
    N: RunName,
    W: FlowWork,
    LI: LaneIn<N>,
    H: Shelf<BucketTable<W>, N>,
    P: Pool,
    M: NoteLoad,
    G: Gate,
>(
    worker: &mut Worker<W>,
    work: &W,
    lane: &mut LI,
    shelf: &mut H,
    pool: &mut P,
    meter: &mut M,
    gate: &G,
) -> WorkerTurn
    requires { IsAtWork (workload W.opening W.after W.cost_of N.packets) worker.old.state (LI.history lane.old) (H.history shelf.old) (M.history meter.old) }
    ensures work { IsAtWork (workload W.opening W.after W.cost_of N.packets) worker.new.state (LI.history lane.new) (H.history shelf.new) (M.history meter.new) }
    ensures ended { result ≡ Ended → IsDone worker.new.state (LI.history lane.new) (H.history shelf.new) }
    ensures homes { (LI.home lane.new ≡ LI.home lane.old) × (H.home shelf.new ≡ H.home shelf.old) × (M.home meter.new ≡ M.home meter.old) × (P.home pool.new ≡ P.home pool.old) }
    ensures same { (worker.new.state.core ≡ worker.old.state.core) × (worker.new.state.run ≡ worker.old.state.run) }
{
    worker.turn::<N, LI, H, P, M, G>(work, lane, shelf, pool, meter, gate)
}

/// Takes turns until the worker has ended, or was idle too often in a row. Answers whether it has
/// ended.
pub(crate) fn work_turns<
    N: RunName,
    W: FlowWork,
    LI: LaneIn<N>,
    H: Shelf<BucketTable<W>, N>,
    P: Pool,
    M: NoteLoad,
    G: Gate,
    R: Wait,
>(
    rt: &R,
    worker: &mut Worker<W>,
    work: &W,
    lane: &mut LI,
    shelf: &mut H,
    pool: &mut P,
    meter: &mut M,
    gate: &G,
) -> bool
    requires { IsAtWork (workload W.opening W.after W.cost_of N.packets) worker.old.state (LI.history lane.old) (H.history shelf.old) (M.history meter.old) }
    ensures work { IsAtWork (workload W.opening W.after W.cost_of N.packets) worker.new.state (LI.history lane.new) (H.history shelf.new) (M.history meter.new) }
    ensures ended { IsTrue result → IsDone worker.new.state (LI.history lane.new) (H.history shelf.new) }
    ensures homes { (LI.home lane.new ≡ LI.home lane.old) × (H.home shelf.new ≡ H.home shelf.old) × (M.home meter.new ≡ M.home meter.old) × (P.home pool.new ≡ P.home pool.old) }
    ensures same { (worker.new.state.core ≡ worker.old.state.core) × (worker.new.state.run ≡ worker.old.state.run) }
{
    let mut idle = 0u32;
    for _ in rt.forever() {
        match one_turn::<N, W, LI, H, P, M, G>(worker, work, lane, shelf, pool, meter, gate) {
            WorkerTurn::Ended => return true,
            WorkerTurn::Idle if idle + 1 == PATIENCE => return false,
            WorkerTurn::Idle => {
                idle += 1;
                thread::yield_now();
            }
            _ => idle = 0,
        }
    }
    unreachable!()
}
