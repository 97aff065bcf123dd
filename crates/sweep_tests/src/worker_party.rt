use bucket_table::BucketTable;
use core_queue::TakerEnd;
use flow_work::FlowWork;
use handover_words::ShelfEnd;
use load_meter::MeterEnd;
use packet_fields::RunName;
use packet_pool::PoolEnd;
use rss_base::OpenGate;
use std::marker::Model;
use std::sync::Wait;
use worker_loop::{Worker, WorkerTurn};

/// The worker of a core with its ends.
#[derive(Drop)]
pub(crate) struct WorkerParty<'a, W: FlowWork, N: RunName, R> {
    pub(crate) worker: Worker<W>,
    pub(crate) lane: TakerEnd<'a, R, N>,
    pub(crate) shelf: ShelfEnd<'a, BucketTable<W>, N>,
    pub(crate) pool: PoolEnd<'a, R>,
    pub(crate) meter: MeterEnd<'a>,
}

impl<'a, W: FlowWork, N: RunName, R> Model for WorkerParty<'a, W, N, R> {
    ghost use Rattle.worker_loop.specs.Workload.{workload};
    ghost use Rattle.worker_loop.specs.Tied.{Tied};

    ghost Value = { Unit {0} };

    ghost view = { λ s. tt };

    // The worker is tied to its ends.
    ghost invariant = { λ s. Tied (workload W.opening W.after W.cost_of N.packets) s.worker.state s.lane.history s.shelf.history s.meter.history };
}

impl<'a, W: FlowWork + Drop, N: RunName + Drop, R: Wait> WorkerParty<'a, W, N, R> {
    /// One turn of the worker.
    pub(crate) fn turn(&mut self, work: &W) -> WorkerTurn {
        self.worker.turn::<N, _, _, _, _, OpenGate>(
            work,
            &mut self.lane,
            &mut self.shelf,
            &mut self.pool,
            &mut self.meter,
            &OpenGate,
        )
    }

    /// Leaves the ends.
    pub(crate) fn leave(self) -> Worker<W> {
        let WorkerParty {
            worker,
            lane,
            shelf,
            pool,
            meter,
        } = self;
        let _taker = lane.into_pass();
        let _seat = shelf.into_seat();
        let _cells = pool.into_pass();
        let _load = meter.into_seat();
        worker
    }
}
