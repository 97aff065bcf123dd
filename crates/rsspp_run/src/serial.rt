// A run on one thread.
ghost use Rattle.std.specs.Prelude.{◌≡◌, ◌⊎◌, Option, None, List, [], ℕ, Err, IfOk, IfErr, OnOk, map};
ghost use Rattle.std.specs.Io.KnownBytes.{IsAtEnd};
ghost use Rattle.packet_fields.specs.declared.packet.PacketInfo.{PacketInfo};
ghost use Rattle.dispatch_loop.specs.Accepted.{IsAccepted};
ghost use Rattle.dispatch_loop.specs.Past.{AreNamed};
ghost use Rattle.dispatch_loop.specs.Terms.{terms_of};
ghost use Rattle.rsspp_run.specs.Ends.{IsSerialRun, AreTablesOf};
ghost use Rattle.rsspp_run.specs.OneTable.{AreAll};
ghost use Rattle.rsspp_run.specs.Refused.{Refuses, HasRunCause};

use crate::closing::finish;
use crate::local_run::LocalRun;
use crate::run_end::refused;
use crate::{RunEnd, RunFault};
use bucket_table::FlowHashKey;
use dispatch_loop::{Dispatcher, Options, policy_of};
use flow_work::FlowWork;
use packet_fields::RunName;
use pcap_reader::Reader;
use rss_base::Source;
use std::alloc::Global;

/// Runs the dispatcher and its workers on one thread, in sweeps that the number orders, until all
/// have finished. Nothing that it answers depends on the numbers that its tables hash by. A run
/// whose stream ended by a fault is refused with that fault, and a run with a
/// table, a log or a journal that is short of memory with `NoMemory`.
pub fn run_serial<N: RunName, S: Source, W: FlowWork>(
    alloc: Global,
    options: &Options,
    hashing: &FlowHashKey,
    work: &W,
    source: &mut S,
    number: u32,
) -> Result<RunEnd<W>, RunFault>
    requires accepted { IsAccepted options.now }
    requires named { AreNamed N.packets options.now.packets (S.left source.old) }
    ensures run { IfOk result (λ end. (all : List PacketInfo) × AreAll options.now.packets (S.left source.old) all
        × IsSerialRun (terms_of W.cost_of options.now) options.now.pool number all end.journal end.custody.items end.worked.items
        × AreTablesOf W.opening W.after N.packets (terms_of W.cost_of options.now) all end.tables.items) }
    ensures alone { IfOk result (λ end. (end.notes.items ≡ []) × (end.shelf ≡ None)) }
    ensures end { OnOk result (IsAtEnd (S.left source.new)) }
    ensures refused { IfErr result (λ fault. Refuses options.now.packets (S.left source.old) (S.left source.new) fault) }
    // Memory runs out before the first read, or behind the last one.
    ensures memory { result ≡ Err RunFault.NoMemory → (source.new ≡ source.old)
        ⊎ ((all : List PacketInfo) × AreAll options.now.packets (S.left source.old) all × IsAtEnd (S.left source.new)) }
    ensures cause { HasRunCause (S.faults source.old) (S.faults source.new) result }
    ensures origin { S.origin source.new ≡ S.origin source.old }
{
    let policy = policy_of(alloc, options)?;
    let mut dispatcher = Dispatcher::new(alloc, options, policy)?;
    let mut local = LocalRun::<W, N>::new(alloc, options, hashing)?;
    let mut reader = Reader::start(alloc, source)?;
    let end = local.run_sweeps(&mut dispatcher, number, work, &mut reader, source);
    refused(end)?;
    Ok(finish(alloc, dispatcher, local, options.start.buckets())?)
}
