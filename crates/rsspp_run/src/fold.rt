// All packets of a capture in one table, with no queue.
ghost use Rattle.std.specs.Prelude.{◌≡◌, ◌≤◌, Option, None, Some, List, ℕ, [], IfOk, IfErr, OnOk};
ghost use Rattle.std.specs.Io.KnownBytes.{IsAtEnd};
ghost use Rattle.packet_fields.specs.declared.packet.PacketInfo.{PacketInfo};
ghost use Rattle.dispatch_loop.specs.Past.{past, IsReading, IsOver};
ghost use Rattle.dispatch_loop.specs.Rules.{BlamesRead};
ghost use Rattle.rsspp_run.specs.Refused.{Refuses, HasRunCause};
ghost use Rattle.rsspp_run.specs.OneTable.{AreAll, IsFilling, IsOneTable};

use crate::RunFault;
use crate::run_end::refused;
use bucket_table::{BucketTable, FlowHashKey};
use dispatch_loop::{DispatcherEnd, read_next};
use flow_work::FlowWork;
use pcap_reader::Reader;
use rss_base::Source;
use std::alloc::Global;

/// Works all packets of a capture in one table, in order, which hashes by the numbers handed in.
/// Record number `packets` is one too many.
pub fn one_thread<S: Source, W: FlowWork>(
    alloc: Global,
    packets: u32,
    hashing: &FlowHashKey,
    work: &W,
    source: &mut S,
) -> Result<BucketTable<W>, RunFault>
    ensures table { IfOk result (λ table. (all : List PacketInfo) × AreAll packets (S.left source.old) all × IsOneTable W.opening W.after all table) }
    ensures end { OnOk result (IsAtEnd (S.left source.new)) }
    ensures refused { IfErr result (λ fault. Refuses packets (S.left source.old) (S.left source.new) fault) }
    ensures cause { HasRunCause (S.faults source.old) (S.faults source.new) result }
    ensures origin { S.origin source.new ≡ S.origin source.old }
{
    let mut table = BucketTable::new(alloc, 0, hashing)?;
    let mut reader = Reader::start(alloc, source)?;
    table.begin_custody(0);
    let end = work_stream(packets, work, &mut table, &mut reader, source);
    refused(end)?;
    table.end_custody();
    if table.short() {
        return Err(RunFault::NoMemory);
    }
    Ok(table)
}

// Works packets until their stream ends, and tells how it ended.
fn work_stream<S: Source, W: FlowWork>(
    limit: u32,
    work: &W,
    table: &mut BucketTable<W>,
    reader: &mut Reader,
    source: &mut S,
) -> DispatcherEnd
    requires reading { (bytes : Option (List ℕ)) × IsReading limit (past bytes []) None reader.old (S.left source.old) }
    requires empty { IsFilling W.opening W.after [] table.old }
    ensures worked { (bytes : Option (List ℕ)) → IsReading limit (past bytes []) None reader.old (S.left source.old)
        → (all : List PacketInfo) × IsFilling W.opening W.after all table.new × IsOver limit (past bytes all) None result (S.left source.new) }
    ensures blames { BlamesRead (Some result) (S.faults source.old) (S.faults source.new) }
    ensures origin { S.origin source.new ≡ S.origin source.old }
{
    'packets: loop {
        let place = table.done();
        match read_next(limit, place, reader, source) {
            Ok(packet) => table.work(work, &packet, place),
            Err(end) => return end,
        }
    }
}
