// Laws of what a run leaves at its end.
ghost use Rattle.std.specs.Prelude.{◌≡◌, ◌≤◌, ℕ, List, Option, Some, length, sum_by, slice_get, All};
ghost use Rattle.packet_fields.specs.declared.key.FlowKey.{FlowKey};
ghost use Rattle.packet_fields.specs.declared.packet.PacketInfo.{PacketInfo};
ghost use Rattle.bucket_table.specs.Table.{TableOf};
ghost use Rattle.toeplitz.specs.Bucket.{bucket_hash};
ghost use Rattle.worker_loop.specs.Keys.{HasBucket};
ghost use Rattle.dispatch_loop.specs.Terms.{Terms, buckets_of};
ghost use Rattle.rsspp_run.specs.Ends.{AreTablesOf};

use flow_work::FlowWork;

/// Each table that a run leaves has keys of its bucket alone, so no key stands in two of them. All
/// of them together have done as many packets as the run had.
pub fn tables_share_the_packets<W: FlowWork>()
    ensures keys { (packets : Option (List PacketInfo)) (t : Terms) (all : List PacketInfo) (tables : List (TableOf W.State)) (b : ℕ) (table : TableOf W.State)
        → AreTablesOf W.opening W.after packets t all tables → slice_get tables b ≡ Some table → All (λ (e : FlowKey × W.State). HasBucket (bucket_hash t.key (buckets_of t)) b e.0) table.flows }
    ensures done { (packets : Option (List PacketInfo)) (t : Terms) (all : List PacketInfo) (tables : List (TableOf W.State))
        → AreTablesOf W.opening W.after packets t all tables → 1 ≤ buckets_of t → sum_by (λ (table : TableOf W.State). table.done) tables ≡ length all }
{}
