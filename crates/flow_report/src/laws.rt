// Laws of the report.
ghost use Rattle.std.specs.Prelude.{◌≡◌, ℕ, List, length, sum_by};
ghost use Rattle.std.specs.List.{AllPairs, list_any};
ghost use Rattle.std.specs.List.Sorted.{IsStrictlySortedBy};
ghost use Rattle.packet_fields.specs.declared.key.FlowKey.{FlowKey};
ghost use Rattle.packet_fields.specs.declared.packet.PacketInfo.{PacketInfo};
ghost use Rattle.packet_fields.specs.Key.{key_cmp};
ghost use Rattle.bucket_table.specs.FirstKeys.{same_key};
ghost use Rattle.bucket_table.specs.Table.{TableOf};
ghost use Rattle.flow_report.specs.Report.{keys_of};
ghost use Rattle.flow_report.specs.Tables.{SharesNoKey, StandTogether};

use flow_work::FlowWork;

/// The keys of a report are in key order, and they are the packets' keys and no others.
pub fn report_keys()
    ensures sorted { (packets : List PacketInfo) → IsStrictlySortedBy key_cmp (keys_of packets) }
    ensures among { (key : FlowKey) (packets : List PacketInfo) →
        list_any (same_key key) (keys_of packets) ≡ list_any (λ p. same_key key p.key) packets }
{}

/// Of tables that together stand for packets no two share a key, as [`report`](crate::report)
/// requires, and together they have done as many packets as there are.
pub fn standing_tables<W: FlowWork>()
    ensures apart { (packets : List PacketInfo) (bucket_of : FlowKey → ℕ) (tables : List (TableOf W.State)) →
        StandTogether W.opening W.after bucket_of packets tables → AllPairs SharesNoKey tables }
    ensures done { (packets : List PacketInfo) (bucket_of : FlowKey → ℕ) (tables : List (TableOf W.State)) →
        StandTogether W.opening W.after bucket_of packets tables → sum_by (λ t. t.done) tables ≡ length packets }
{}
