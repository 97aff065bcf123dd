ghost use Rattle.std.specs.Prelude.{◌≡◌, ◌≤◌, ℕ, List, false, All, sum_by, OnOk, OnErr};
ghost use Rattle.std.specs.List.{AllPairs};
ghost use Rattle.rss_base.specs.Written.{Gets, GetsFront};
ghost use Rattle.flow_report.specs.Cause.{HasReportCause};
ghost use Rattle.packet_fields.specs.declared.key.FlowKey.{FlowKey};
ghost use Rattle.packet_fields.specs.declared.packet.PacketInfo.{PacketInfo};
ghost use Rattle.flow_report.specs.Report.{report};
ghost use Rattle.flow_report.specs.Tables.{SharesNoKey, StandTogether, tables_text};

use crate::ReportFault;
use crate::line::{write_flow, write_total};
use crate::order::flows_in_key_order;
use crate::sums::totals;
use bucket_table::BucketTable;
use flow_work::FlowWork;
use rss_base::{Sink, Text};
use std::alloc::Global;

/// Writes one line per flow of the tables, in key order, and then the total line. Where the tables
/// together stand for packets, that is the report of these packets. After a fault a front of the text
/// was written.
pub fn report<W: FlowWork, K: Sink>(
    alloc: Global,
    work: &W,
    tables: &[BucketTable<W>],
    out: &mut K,
) -> Result<(), ReportFault>
    requires whole { All (λ t. t.short ≡ false) tables.now }
    requires apart { AllPairs SharesNoKey tables.now }
    requires few { sum_by (λ t. t.done) tables.now ≤ 4294967295 }
    ensures ok { OnOk result
        (Gets (K.may_hold out.old) (K.may_hold out.new) (tables_text W.line_text tables.now)) }
    ensures err { OnErr result
        (GetsFront (K.may_hold out.old) (K.may_hold out.new) (tables_text W.line_text tables.now)) }
    ensures cause { HasReportCause (K.faults out.old) (K.faults out.new) result }
    ensures packets { (packets : List PacketInfo) (bucket_of : FlowKey → ℕ)
        → StandTogether W.opening W.after bucket_of packets tables.now
        → tables_text W.line_text tables.now ≡ report W.opening W.after W.line_text packets }
{
    let Ok(sorted) = flows_in_key_order(alloc, tables) else {
        return Err(ReportFault::NoMemory);
    };
    let mut text = Text::new(alloc);
    'flows: for (key, state) in &sorted {
        match write_flow(work, key, state, &mut text, out) {
            Ok(()) => {}
            Err(fault) => return Err(fault),
        }
    }
    write_total(&totals(tables), &mut text, out)
}
