// A run in threads.
ghost use Rattle.std.specs.Prelude.{◌≡◌, ◌⊎◌, List, Err, IfOk, IfErr, OnOk};
ghost use Rattle.std.specs.Io.KnownBytes.{IsAtEnd};
ghost use Rattle.packet_fields.specs.declared.packet.PacketInfo.{PacketInfo};
ghost use Rattle.dispatch_loop.specs.Accepted.{IsAccepted};
ghost use Rattle.dispatch_loop.specs.Past.{AreNamed};
ghost use Rattle.dispatch_loop.specs.Terms.{terms_of};
ghost use Rattle.rsspp_run.specs.Ends.{AreTablesOf};
ghost use Rattle.rsspp_run.specs.OneTable.{AreAll};
ghost use Rattle.rsspp_run.specs.Refused.{Refuses, HasRunCause};
ghost use Rattle.threaded_run.specs.Threaded.{IsThreadedRun};

use crate::closing::finish;
use crate::parties::{Ran, open, run_parties};
use crate::rooms::Rooms;
use crate::telling::tell;
use bucket_table::FlowHashKey;
use dispatch_loop::Options;
use flow_work::FlowWork;
use packet_fields::RunName;
use rss_base::{Gate, Source};
use rsspp_run::{RunEnd, RunFault, refused};
use std::alloc::Global;
use std::sync::Wait;
use std::thread::Threads;

/// Runs the dispatcher on the caller's thread and each worker in a thread of its own, until all have
/// ended. Workers that no thread could be made for are run by the caller. All memory of the opening
/// is taken before the first read. A run with a table, a log or a journal that is short of memory is
/// `NoMemory`. No clause names the numbers that its tables hash by. That it returns isn't claimed.
pub fn run_threads<
    N: RunName + Send + Sync + Drop,
    S: Source,
    W: FlowWork + Send + Sync + Drop,
    G: Gate + Sync,
    R: Threads + Wait + Sync,
>(
    rt: &R,
    alloc: Global,
    options: &Options,
    hashing: &FlowHashKey,
    work: &W,
    source: &mut S,
    gate: &G,
) -> Result<RunEnd<W>, RunFault>
    requires accepted { IsAccepted options.now }
    requires named { AreNamed N.packets options.now.packets (S.left source.old) }
    ensures run { IfOk result (λ end. (all : List PacketInfo) × AreAll options.now.packets (S.left source.old) all
        × IsThreadedRun (terms_of W.cost_of options.now) all end.journal end.custody.items end.worked.items end.notes.items end.shelf
        × AreTablesOf W.opening W.after N.packets (terms_of W.cost_of options.now) all end.tables.items) }
    ensures end { OnOk result (IsAtEnd (S.left source.new)) }
    ensures refused { IfErr result (λ fault. Refuses options.now.packets (S.left source.old) (S.left source.new) fault) }
    ensures memory { result ≡ Err RunFault.NoMemory → (source.new ≡ source.old)
        ⊎ ((all : List PacketInfo) × AreAll options.now.packets (S.left source.old) all × IsAtEnd (S.left source.new)) }
    ensures cause { HasRunCause (S.faults source.old) (S.faults source.new) result }
    ensures origin { S.origin source.new ≡ S.origin source.old }
{
    let (shared, parties) = open::<W, N, R>(rt, alloc, options, hashing)?;
    let Rooms {
        passes,
        notes,
        workers,
        tables,
    } = Rooms::new(alloc, options.cores, options.start.buckets())?;
    let Ran {
        dispatcher,
        senders,
        seat,
        worker_parties,
        end,
    } = run_parties(rt, alloc, &shared, work, gate, source, parties, passes)?;
    let left = finish(
        shared,
        senders,
        worker_parties,
        seat,
        notes,
        workers,
        tables,
    );
    refused(end)?;
    Ok(tell(alloc, dispatcher, left)?)
}
