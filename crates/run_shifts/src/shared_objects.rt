use bucket_table::BucketTable;
use core_queue::RuledLane;
use flow_work::FlowWork;
use handover_words::WordShelf;
use load_meter::Meter;
use packet_fields::RunName;
use packet_pool::RuledPool;
use std::marker::Model;

/// What all parties of a run share. It is lent to all threads.
#[derive(Drop)]
pub struct SharedObjects<W: FlowWork, N: RunName> {
    /// The lane of each core.
    pub lanes: Vec<RuledLane<N>>,
    pub shelf: WordShelf<BucketTable<W>, N>,
    pub pool: RuledPool,
    pub meter: Meter,
}

impl<W: FlowWork, N: RunName> Model for SharedObjects<W, N> {
    ghost use Rattle.run_shifts.specs.Parties.{SharedView};

    ghost Value = { SharedView };

    ghost view = { λ f. record { lanes = f.lanes.items; shelf = f.shelf; pool = f.pool; meter = f.meter } };
}
