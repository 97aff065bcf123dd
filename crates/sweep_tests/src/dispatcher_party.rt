use balancer::Balancer;
use bucket_table::BucketTable;
use core_queue::SenderEnd;
use dispatch_loop::{Dispatcher, DispatcherTurn};
use flow_work::FlowWork;
use handover_words::{Shelf, ShelfEnd};
use load_meter::MeterEnd;
use packet_fields::RunName;
use packet_pool::PoolEnd;
use pcap_reader::Reader;
use rss_base::MemorySource;
use std::marker::Model;
use std::sync::Wait;

/// The dispatcher for two cores with its reader, its source and its ends.
#[derive(Drop)]
pub(crate) struct DispatcherParty<'a, W: FlowWork, N: RunName, R> {
    pub(crate) dispatcher: Dispatcher<W, Balancer>,
    pub(crate) reader: Reader,
    pub(crate) source: MemorySource,
    pub(crate) lanes: Vec<SenderEnd<'a, R, N>>,
    pub(crate) shelf: ShelfEnd<'a, BucketTable<W>, N>,
    pub(crate) pool: PoolEnd<'a, R>,
    pub(crate) meter: MeterEnd<'a>,
}

impl<'a, W: FlowWork, N: RunName, R> Model for DispatcherParty<'a, W, N, R> {
    ghost use Rattle.dispatch_loop.specs.DispatcherState.{dispatcher_state_by};
    ghost use Rattle.sweep_tests.specs.DispatcherParty.{IsDispatcherParty};

    ghost Value = { Unit {0} };

    ghost view = { λ d. tt };

    // The dispatcher is tied to its ends.
    ghost invariant = { λ d. IsDispatcherParty N.packets (dispatcher_state_by W.cost_of d.dispatcher) d.lanes.items d.shelf d.meter d.reader d.source };
}

impl<'a, W: FlowWork + Drop, N: RunName + Drop, R: Wait> DispatcherParty<'a, W, N, R> {
    /// One turn of the dispatcher.
    pub(crate) fn turn(&mut self, work: &W) -> DispatcherTurn {
        self.dispatcher
            .turn::<N, MemorySource, _, BucketTable<W>, _, _, _>(
                work,
                &mut self.reader,
                &mut self.source,
                &mut self.lanes,
                &mut self.shelf,
                &mut self.pool,
                &mut self.meter,
            )
    }

    /// Claims a bucket's table where it lies with so many packets done, and leaves the ends.
    pub(crate) fn leave(
        self,
        bucket: u16,
        place: u32,
    ) -> (Dispatcher<W, Balancer>, Option<BucketTable<W>>) {
        let DispatcherParty {
            dispatcher,
            reader: _,
            source: _,
            lanes,
            mut shelf,
            pool,
            meter,
        } = self;
        let table = if bucket < dispatcher.journal().start().buckets() {
            shelf.claim(bucket, place).ok()
        } else {
            None
        };
        for end in lanes {
            let _sender = end.into_pass();
        }
        let _seat = shelf.into_seat();
        let _cells = pool.into_pass();
        let _load = meter.into_seat();
        (dispatcher, table)
    }
}
