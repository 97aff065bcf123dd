// The report of a run in threads.
ghost use Rattle.std.specs.Prelude.{◌≡◌, ◌⊎◌, List, ℕ, length, None, Some, Err, IsSome, IfOk, IfErr, OnOk, MatchResult};
ghost use Rattle.std.specs.Io.KnownBytes.{IsAtEnd};
ghost use Rattle.packet_fields.specs.declared.packet.PacketInfo.{PacketInfo};
ghost use Rattle.flow_report.specs.Report.{report};
ghost use Rattle.flow_report.specs.Tables.{StandTogether};
ghost use Rattle.dispatch_loop.specs.Accepted.{IsAccepted};
ghost use Rattle.dispatch_loop.specs.Past.{AreNamed};
ghost use Rattle.dispatch_loop.specs.Terms.{terms_of};
ghost use Rattle.threaded_run.specs.Threaded.{IsThreadedRun};
ghost use Rattle.rsspp_run.specs.OneTable.{AreAll};
ghost use Rattle.rsspp_run.specs.Refused.{Refuses, HasRunCause};
ghost use Rattle.rsspp_main.specs.Reports.{AreShown, IsReportable, bucket_by};
ghost use Rattle.pcapng_reader.specs.Lent.{classic_known};
ghost use Rattle.rsspp_main.specs.Input.{IsUnbroken};
ghost use Rattle.rsspp_main.specs.Run.{ends_at, Explains, EndsBeforeText};
ghost use Rattle.rsspp_main.specs.Run as commands;
ghost use Rattle.rsspp_main.specs.Threads.{IsThreadedText};

use crate::input::{fault_of_opening, fault_of_run_over};
use crate::serial::{fault_of_report, work_of, write_run};
use crate::{TopFault, Trace};
use bucket_table::FlowHashKey;
use command_words::Command;
use dispatch_loop::Options;
use flow_report::standing_tables;
use flow_work::{Count, FlowWork, Gaps, OrderFold, TcpFlags, WorkName};
use packet_fields::RunName;
use pcapng_reader::{NgOpening, NgSource};
use rss_base::{Gate, Sink, Source};
use rsspp_run::{RunEnd, RunFault, tables_share_the_packets};
use std::alloc::Global;
use std::sync::Wait;
use std::thread::Threads;
use threaded_run::run_threads;

/// Runs a classic capture in threads, and answers tables and a journal that can be written: together the
/// tables stand for the packets that the report is to show.
pub fn threads_to_report<
    N: RunName + Send + Sync + Drop,
    S: Source,
    W: FlowWork + Send + Sync + Drop,
    G: Gate + Sync,
    R: Threads + Wait + Sync,
>(
    rt: &R,
    alloc: Global,
    options: &Options,
    hashing: &FlowHashKey,
    work: &W,
    source: &mut S,
    gate: &G,
) -> Result<RunEnd<W>, RunFault>
    requires accepted { IsAccepted options.now }
    requires named { AreNamed N.packets options.now.packets (S.left source.old) }
    ensures run { IfOk result (λ end. (all : List PacketInfo) × AreAll options.now.packets (S.left source.old) all
        × IsThreadedRun (terms_of W.cost_of options.now) all end.journal end.custody.items end.worked.items end.notes.items end.shelf
        × (shown : List PacketInfo) × AreShown N.packets (terms_of W.cost_of options.now) all shown
        × StandTogether W.opening W.after (bucket_by options.now.key (length options.now.start.owners)) shown end.tables.items) }
    ensures ready { IfOk result (λ end. IsReportable end.tables.items end.journal.entries) }
    ensures shelf { IfOk result (λ end. IsSome end.shelf) }
    ensures end { OnOk result (IsAtEnd (S.left source.new)) }
    ensures refused { IfErr result (λ fault. Refuses options.now.packets (S.left source.old) (S.left source.new) fault) }
    ensures memory { result ≡ Err RunFault.NoMemory → (source.new ≡ source.old)
        ⊎ ((all : List PacketInfo) × AreAll options.now.packets (S.left source.old) all × IsAtEnd (S.left source.new)) }
    ensures cause { HasRunCause (S.faults source.old) (S.faults source.new) result }
    ensures origin { S.origin source.new ≡ S.origin source.old }
{
    standing_tables::<W>();
    tables_share_the_packets::<W>();
    run_threads::<N, S, W, G, R>(rt, alloc, options, hashing, work, source, gate)
}

// Runs the capture on a source in threads: the classic one that its bytes stand for. Answers what
// `threads_to_report` does, unless a block breaks.
fn threads_over_input<
    N: RunName + Send + Sync + Drop,
    S: Source,
    W: FlowWork + Send + Sync + Drop,
    G: Gate + Sync,
    R: Threads + Wait + Sync,
>(
    rt: &R,
    alloc: Global,
    options: &Options,
    hashing: &FlowHashKey,
    work: &W,
    source: &mut S,
    gate: &G,
) -> Result<RunEnd<W>, TopFault>
    requires accepted { IsAccepted options.now }
    requires named { AreNamed N.packets options.now.packets (classic_known (S.left source.old)) }
    ensures run { IfOk result (λ end. (all : List PacketInfo) × AreAll options.now.packets (classic_known (S.left source.old)) all
        × IsThreadedRun (terms_of W.cost_of options.now) all end.journal end.custody.items end.worked.items end.notes.items end.shelf
        × (shown : List PacketInfo) × AreShown N.packets (terms_of W.cost_of options.now) all shown
        × StandTogether W.opening W.after (bucket_by options.now.key (length options.now.start.owners)) shown end.tables.items) }
    ensures ready { IfOk result (λ end. IsReportable end.tables.items end.journal.entries) }
    ensures shelf { IfOk result (λ end. IsSome end.shelf) }
    ensures whole { OnOk result (IsUnbroken (S.left source.old) × IsAtEnd (S.left source.new) × (S.faults source.new ≡ S.faults source.old)) }
    ensures refused { IfErr result (λ fault. EndsBeforeText options.now.packets (S.left source.old) (S.left source.new) (S.faults source.old) (S.faults source.new) fault) }
    ensures origin { S.origin source.new ≡ S.origin source.old }
{
    let opening = match NgOpening::read(alloc, source) {
        Ok(opening) => opening,
        Err(error) => return Err(fault_of_opening(error)),
    };
    let mut input = NgSource::over(opening, source);
    let run = threads_to_report::<N, _, W, G, R>(
        rt, alloc, options, hashing, work, &mut input, gate,
    );
    let broken = input.broken();
    let _ = input.into_inner();
    match run {
        Ok(end) => match broken {
            Some(e) => Err(TopFault::Block(e)),
            None => Ok(end),
        },
        Err(fault) => Err(fault_of_run_over(fault, broken)),
    }
}

/// What a run in threads leaves beside its tables.
pub fn trace_of<W: FlowWork>(end: RunEnd<W>) -> Trace
    requires { IsSome end.shelf }
    ensures journal { result.journal ≡ end.journal }
    ensures custody { result.custody.items ≡ end.custody.items }
    ensures worked { result.worked.items ≡ end.worked.items }
    ensures notes { result.notes.items ≡ end.notes.items }
    ensures shelf { end.shelf ≡ Some result.shelf }
{
    let RunEnd {
        tables: _,
        custody,
        journal,
        worked,
        notes,
        shelf,
    } = end;
    match shelf {
        Some(shelf) => Trace {
            journal,
            custody,
            worked,
            notes,
            shelf,
        },
        None => unreachable!(),
    }
}

// The report of a run in threads by a work. The work's options are the command's.
fn threaded_by<
    N: RunName + Send + Sync + Drop,
    S: Source,
    W: FlowWork + Send + Sync + Drop,
    K: Sink,
    G: Gate + Sync,
    R: Threads + Wait + Sync,
>(
    rt: &R,
    alloc: Global,
    command: &Command,
    hashing: &FlowHashKey,
    work: &W,
    source: &mut S,
    out: &mut K,
    gate: &G,
) -> Result<Trace, TopFault>
    requires accepted { IsAccepted command.now.options }
    requires named { AreNamed N.packets command.now.options.packets (classic_known (S.left source.old)) }
    ensures outcome { let at = ends_at S.left S.faults K.faults K.may_hold in
        let before = at source.old out.old in let now = at source.new out.new in
        let options = command.now.options in
        let writes = IsThreadedText N.packets (report W.opening W.after W.line_text) command.now.journal (terms_of W.cost_of options) in
        MatchResult result (λ run. Explains options.packets (writes (Some run)) before now None) (λ fault. Explains options.packets (writes None) before now (Some fault)) }
    ensures origin { S.origin source.new ≡ S.origin source.old }
{
    let end = match threads_over_input::<N, S, W, G, R>(
        rt,
        alloc,
        &command.options,
        hashing,
        work,
        source,
        gate,
    ) {
        Ok(end) => end,
        Err(fault) => return Err(fault),
    };
    match write_run(alloc, command.journal, work, &end, out) {
        Ok(()) => Ok(trace_of(end)),
        Err(fault) => Err(fault_of_report(fault)),
    }
}

/// Reports the capture on the source, by the command's work, from the tables of a run in threads,
/// and behind the report writes the journal of that run where the command asks for it. Nothing is
/// written before the capture was read to its end. Answers the run's trace. That it returns isn't
/// claimed.
pub fn threaded_report<
    N: RunName + Send + Sync + Drop,
    S: Source,
    K: Sink,
    G: Gate + Sync,
    R: Threads + Wait + Sync,
>(
    rt: &R,
    alloc: Global,
    command: &Command,
    hashing: &FlowHashKey,
    source: &mut S,
    out: &mut K,
    gate: &G,
) -> Result<Trace, TopFault>
    requires accepted { IsAccepted command.now.options }
    requires named { AreNamed N.packets command.now.options.packets (classic_known (S.left source.old)) }
    ensures outcome { let at = ends_at S.left S.faults K.faults K.may_hold in
        let before = at source.old out.old in let now = at source.new out.new in
        let options = command.now.options in
        let writes = IsThreadedText N.packets (commands.report_by options.work) command.now.journal (commands.run_terms options) in
        MatchResult result (λ run. Explains options.packets (writes (Some run)) before now None) (λ fault. Explains options.packets (writes None) before now (Some fault)) }
    ensures origin { S.origin source.new ≡ S.origin source.old }
{
    match work_of(&command.options) {
        WorkName::Count => {
            threaded_by::<N, S, Count, K, G, R>(
                rt, alloc, command, hashing, &Count, source, out, gate,
            )
        }
        WorkName::TcpFlags => {
            threaded_by::<N, S, TcpFlags, K, G, R>(
                rt, alloc, command, hashing, &TcpFlags, source, out, gate,
            )
        }
        WorkName::Gaps => {
            threaded_by::<N, S, Gaps, K, G, R>(
                rt, alloc, command, hashing, &Gaps, source, out, gate,
            )
        }
        WorkName::OrderFold => {
            threaded_by::<N, S, OrderFold, K, G, R>(
                rt, alloc, command, hashing, &OrderFold, source, out, gate,
            )
        }
    }
}
