ghost use Rattle.std.specs.Prelude.{◌≡◌};
ghost use Rattle.worker_loop.specs.Workload.{workload};
ghost use Rattle.run_shifts.specs.WorkerParties.{IsWorkerParty};

use crate::shared_objects::SharedObjects;
use crate::turning::work_turns;
use crate::worker_party::WorkerParty;
use bucket_table::BucketTable;
use flow_work::FlowWork;
use packet_fields::RunName;
use rss_base::Gate;
use std::sync::Wait;
use worker_loop::Worker;

/// One shift of a core: makes its ends, takes turns, and gives the passes and seats back.
pub(crate) fn work_shift<W: FlowWork + Drop, N: RunName + Drop, G: Gate, R: Wait>(
    rt: &R,
    shared: &SharedObjects<W, N>,
    work: &W,
    gate: &G,
    worker_party: WorkerParty<Worker<W>, BucketTable<W>>,
) -> WorkerParty<Worker<W>, BucketTable<W>>
    requires { IsWorkerParty (workload W.opening W.after W.cost_of N.packets) shared.now worker_party }
    ensures { (result.core ≡ worker_party.core) × IsWorkerParty (workload W.opening W.after W.cost_of N.packets) shared.now result }
{
    let WorkerParty {
        core,
        mut worker,
        taker,
        seat,
        load,
        cells,
        ended: _,
    } = worker_party;
    let lane = &shared.lanes[core as usize];
    let mut lane_end = lane.taker(rt, taker);
    let mut shelf_end = shared.shelf.end(seat);
    let mut pool_end = shared.pool.end(rt, cells);
    let mut meter_end = shared.meter.end(load);
    let ended = work_turns::<N, W, _, _, _, _, G, R>(
        rt,
        &mut worker,
        work,
        &mut lane_end,
        &mut shelf_end,
        &mut pool_end,
        &mut meter_end,
        gate,
    );
    WorkerParty {
        core,
        worker,
        taker: lane_end.into_pass(),
        seat: shelf_end.into_seat(),
        load: meter_end.into_seat(),
        cells: pool_end.into_pass(),
        ended,
    }
}
