use bucket_table::BucketTable;
use flow_work::FlowWork;

/// What bucket tables have together.
#[derive(Clone, Copy, Debug, PartialEq, Eq)]
pub struct Totals {
    pub flows: u64,
    pub packets: u64,
    /// The lengths of the packets on the wire added up.
    pub bytes: u64,
}

impl Totals {
    ghost use Rattle.std.specs.Prelude.{◌≡◌, ◌+◌, ◌*◌, ◌≤◌, length};

    // With one more table.
    pub(crate) fn with<W: FlowWork>(self, table: &BucketTable<W>) -> Totals
        requires few { self.packets + table.now.done ≤ 4294967295 }
        requires flows { self.flows ≤ self.packets }
        requires bytes { self.bytes ≤ self.packets * 4294967295 }
        ensures flows { result.flows ≡ self.flows + length table.now.flows }
        ensures packets { result.packets ≡ self.packets + table.now.done }
        ensures bytes { result.bytes ≡ self.bytes + table.now.bytes }
        ensures few_flows { result.flows ≤ result.packets }
        ensures few_bytes { result.bytes ≤ result.packets * 4294967295 }
    {
        Totals {
            flows: self.flows + table.flow_count() as u64,
            packets: self.packets + u64::from(table.done()),
            bytes: self.bytes + table.bytes(),
        }
    }
}
