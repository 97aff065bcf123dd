// The workers of a run and what they share.
ghost use Rattle.std.specs.Prelude.{◌<◌, ◌≡◌, length};
ghost use Rattle.worker_loop.specs.Workload.{workload};
ghost use Rattle.rsspp_run.specs.Serial.{RunState};
ghost use Rattle.dispatch_loop.specs.DispatcherState.{dispatcher_state_by};
ghost use Rattle.dispatch_loop.specs.Rules.{IsTurn};
ghost use Rattle.dispatch_loop.specs.Stays.{StaysTied, IsTied};
ghost use Rattle.rsspp_run.specs.LocalRun.{AreWorkersAt, IsWorkerTurn};
ghost use Rattle.rsspp_run.specs.DispatcherOf.{dispatcher_snapshot_over};

use balancer::Balancer;
use bucket_table::BucketTable;
use core_queue::LocalLane;
use dispatch_loop::{Dispatcher, DispatcherTurn};
use flow_work::FlowWork;
use handover_words::LocalShelf;
use load_meter::LocalMeter;
use packet_fields::RunName;
use packet_pool::LocalPool;
use pcap_reader::Reader;
use rss_base::{OpenGate, Source};
use std::marker::Model;
use toeplitz::Key;
use worker_loop::{Worker, WorkerTurn};

/// The workers of a run, their lanes, and the shelf, pool and meter that all share, on one thread.
#[derive(Drop)]
pub(crate) struct LocalRun<W: FlowWork, N: RunName> {
    pub(crate) key: Key,
    pub(crate) workers: Vec<Worker<W>>,
    pub(crate) lanes: Vec<LocalLane<N>>,
    pub(crate) shelf: LocalShelf<BucketTable<W>, N>,
    pub(crate) pool: LocalPool,
    pub(crate) meter: LocalMeter,
}

impl<W: FlowWork, N: RunName> Model for LocalRun<W, N> {
    ghost use Rattle.bucket_table.specs.Table.{TableOf};
    ghost use Rattle.rsspp_run.specs.LocalRun.{LocalRunView};

    ghost Value = { LocalRunView (TableOf W.State) };

    ghost view = { λ f. record { key = f.key; workers = f.workers.items; lanes = f.lanes.items; shelf = f.shelf; pool = f.pool; meter = f.meter } };
}

impl<W: FlowWork, N: RunName> LocalRun<W, N> {
    /// The turn of a core's worker.
    pub(crate) fn work(&mut self, core: u8, work: &W) -> WorkerTurn
        requires at { (r : RunState) × AreWorkersAt (workload W.opening W.after W.cost_of N.packets) r self.old × (core < length r.machine.cores) }
        ensures did { IsWorkerTurn (workload W.opening W.after W.cost_of N.packets) core result self.old self.new }
    {
        let at = usize::from(core);
        self.workers[at].turn::<
            N,
            LocalLane<N>,
            LocalShelf<BucketTable<W>, N>,
            LocalPool,
            LocalMeter,
            OpenGate,
        >(
            work,
            &mut self.lanes[at],
            &mut self.shelf,
            &mut self.pool,
            &mut self.meter,
            &OpenGate,
        )
    }

    /// The dispatcher's turn.
    pub(crate) fn dispatch<S: Source>(
        &mut self,
        dispatcher: &mut Dispatcher<W, Balancer>,
        work: &W,
        reader: &mut Reader,
        source: &mut S,
    ) -> DispatcherTurn
        requires tied { IsTied N.packets (dispatcher_snapshot_over (dispatcher_state_by W.cost_of dispatcher.old) self.old reader.old (S.left source.old) (S.faults source.old)) }
        ensures tied { StaysTied N.packets result (dispatcher_snapshot_over (dispatcher_state_by W.cost_of dispatcher.old) self.old reader.old (S.left source.old) (S.faults source.old)) (dispatcher_snapshot_over (dispatcher_state_by W.cost_of dispatcher.new) self.new reader.new (S.left source.new) (S.faults source.new)) }
        ensures rule { IsTurn (dispatcher_snapshot_over (dispatcher_state_by W.cost_of dispatcher.old) self.old reader.old (S.left source.old) (S.faults source.old)) result (dispatcher_snapshot_over (dispatcher_state_by W.cost_of dispatcher.new) self.new reader.new (S.left source.new) (S.faults source.new)) }
        ensures same { (self.new.key ≡ self.old.key) × (self.new.workers ≡ self.old.workers) }
        ensures origin { S.origin source.new ≡ S.origin source.old }
    {
        dispatcher.turn::<
            N,
            S,
            LocalLane<N>,
            BucketTable<W>,
            LocalShelf<BucketTable<W>, N>,
            LocalPool,
            LocalMeter,
        >(
            work,
            reader,
            source,
            &mut self.lanes,
            &mut self.shelf,
            &mut self.pool,
            &mut self.meter,
        )
    }
}
