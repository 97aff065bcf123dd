//! The numbers of the total line.
ghost use Rattle.std.specs.Prelude.{◌≡◌, ◌≤◌, ℕ, List, length, sum_by};
ghost use Rattle.packet_fields.specs.declared.key.FlowKey.{FlowKey};
ghost use Rattle.packet_fields.specs.declared.packet.PacketInfo.{PacketInfo};
ghost use Rattle.flow_report.specs.Report.{keys_of};
ghost use Rattle.flow_report.specs.Tables.{totals_of, StandTogether};

use crate::Totals;
use bucket_table::BucketTable;
use flow_work::FlowWork;

/// The numbers of the total line: how many flows and packets the tables have, and the packets'
/// lengths on the wire added up.
pub fn totals<W: FlowWork>(tables: &[BucketTable<W>]) -> Totals
    requires { sum_by (λ t. t.done) tables.now ≤ 4294967295 }
    ensures tables { result ≡ totals_of tables.now }
    ensures packets { (packets : List PacketInfo) (bucket_of : FlowKey → ℕ)
        → StandTogether W.opening W.after bucket_of packets tables.now
        → result ≡ record {
          flows = length (keys_of packets);
          packets = length packets;
          bytes = sum_by (λ p. p.original) packets;
        } }
{
    let mut totals = Totals {
        flows: 0,
        packets: 0,
        bytes: 0,
    };
    for table in tables {
        totals = totals.with(table);
    }
    totals
}
