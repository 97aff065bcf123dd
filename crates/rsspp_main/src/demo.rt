// The report of generated traffic in short.
ghost use Rattle.std.specs.Prelude.{◌≤◌, ◌++◌, ℕ, List, Option, None, Some, OnOk, OnErr, IfOk, MatchResult};
ghost use Rattle.rss_base.specs.Faults.{HasCause};
ghost use Rattle.rss_base.specs.Written.{Gets, GetsFront};
ghost use Rattle.packet_fields.specs.declared.key.FlowKey.{FlowKey};
ghost use Rattle.packet_fields.specs.declared.packet.PacketInfo.{PacketInfo};
ghost use Rattle.flow_report.specs.Report.{report, total_line};
ghost use Rattle.flow_report.specs.Tables.{StandTogether};
ghost use Rattle.traffic_gen.specs.Traffic.{traffic};
ghost use Rattle.dispatch_loop.specs.Accepted.{IsAccepted};
ghost use Rattle.dispatch_loop.specs.Past.{AreNamed};
ghost use Rattle.dispatch_loop.specs.Terms.{terms_of};
ghost use Rattle.rsspp_run.specs.OneTable.{AreAll};
ghost use Rattle.rsspp_main.specs.Demo.{ExplainsDemo, demo_line, packets_made, sum_line};
ghost use Rattle.rsspp_main.specs.Reports.{AreShown, IsReportable};
ghost use Rattle.rsspp_main.specs.Run.{ends};
ghost use Rattle.rsspp_main.specs.Run as commands;
ghost use Rattle.rsspp_main.specs.Threads.{IsTraceOf};

use crate::serial::{fault_of_report, fault_of_run, run_to_report, work_of};
use crate::threaded::{threads_to_report, trace_of};
use crate::{TopFault, Trace};
use bucket_table::FlowHashKey;
use command_words::Command;
use flow_report::sums::totals;
use flow_report::{Totals, report};
use flow_work::{Count, FlowWork, Gaps, OrderFold, TcpFlags, WorkName};
use packet_fields::RunName;
use rss_base::{Failed, FoldSink, Gate, Piece, Sink, write_pieces};
use rsspp_run::RunEnd;
use std::alloc::Global;
use std::sync::Wait;
use std::thread::Threads;
use traffic_gen::{MOST_RECORDS, TrafficSource, good_capture};

// Writes the line of what was asked for.
fn write_asked<K: Sink>(command: &Command, out: &mut K) -> Result<(), Failed>
    ensures ok { OnOk result (Gets (K.may_hold out.old) (K.may_hold out.new) (demo_line command.now.count command.now.number)) }
    ensures err { OnErr result (GetsFront (K.may_hold out.old) (K.may_hold out.new) (demo_line command.now.count command.now.number)) }
    ensures cause { HasCause (K.faults out.old) (K.faults out.new) result }
{
    write_pieces(
        out,
        &[
            Piece::Bytes(b"demo "),
            Piece::Number(u64::from(command.count)),
            Piece::Bytes(b" "),
            Piece::Number(u64::from(command.number)),
            Piece::Bytes(b"\n"),
        ],
    )
}

// Writes the total line of a report.
fn write_totals<K: Sink>(totals: &Totals, out: &mut K) -> Result<(), Failed>
    ensures ok { OnOk result (Gets (K.may_hold out.old) (K.may_hold out.new) (total_line totals.now.flows totals.now.packets totals.now.bytes)) }
    ensures err { OnErr result (GetsFront (K.may_hold out.old) (K.may_hold out.new) (total_line totals.now.flows totals.now.packets totals.now.bytes)) }
    ensures cause { HasCause (K.faults out.old) (K.faults out.new) result }
{
    write_pieces(
        out,
        &[
            Piece::Bytes(b"total flows "),
            Piece::Number(totals.flows),
            Piece::Bytes(b" packets "),
            Piece::Number(totals.packets),
            Piece::Bytes(b" bytes "),
            Piece::Number(totals.bytes),
            Piece::Bytes(b"\n"),
        ],
    )
}

// Writes the line of a report's length and sum.
fn write_sum<K: Sink>(length: u64, sum: u32, out: &mut K) -> Result<(), Failed>
    ensures ok { OnOk result (Gets (K.may_hold out.old) (K.may_hold out.new) (sum_line length sum)) }
    ensures err { OnErr result (GetsFront (K.may_hold out.old) (K.may_hold out.new) (sum_line length sum)) }
    ensures cause { HasCause (K.faults out.old) (K.faults out.new) result }
{
    write_pieces(
        out,
        &[
            Piece::Bytes(b"report "),
            Piece::Number(length),
            Piece::Bytes(b" "),
            Piece::Hex8(sum),
            Piece::Bytes(b"\n"),
        ],
    )
}

// Writes the three lines.
fn write_demo<K: Sink>(
    command: &Command,
    totals: &Totals,
    text: &FoldSink,
    out: &mut K,
) -> Result<(), Failed>
    ensures ok { OnOk result (Gets (K.may_hold out.old) (K.may_hold out.new) (demo_line command.now.count command.now.number ++ (total_line totals.now.flows totals.now.packets totals.now.bytes ++ sum_line text.now.count text.now.value))) }
    ensures err { OnErr result (GetsFront (K.may_hold out.old) (K.may_hold out.new) (demo_line command.now.count command.now.number ++ (total_line totals.now.flows totals.now.packets totals.now.bytes ++ sum_line text.now.count text.now.value))) }
    ensures cause { HasCause (K.faults out.old) (K.faults out.new) result }
{
    match write_asked(command, out) {
        Ok(()) => {}
        Err(failed) => return Err(failed),
    }
    match write_totals(totals, out) {
        Ok(()) => {}
        Err(failed) => return Err(failed),
    }
    write_sum(text.length(), text.sum(), out)
}

// Tells a run over generated traffic in three lines.
fn tell_demo<W: FlowWork, K: Sink>(
    alloc: Global,
    command: &Command,
    work: &W,
    end: &RunEnd<W>,
    out: &mut K,
) -> Result<(), TopFault>
    requires ready { IsReportable end.now.tables.items end.now.journal.entries }
    requires few { command.now.count ≤ MOST_RECORDS }
    ensures outcome { (packets : Option (List PacketInfo)) (all shown : List PacketInfo) (bucket_of : FlowKey → ℕ)
        → AreAll command.now.options.packets (Some (traffic command.now.count command.now.number)) all
        → AreShown packets (commands.run_terms command.now.options) all shown
        → StandTogether W.opening W.after bucket_of shown end.now.tables.items
        → (left : Option (List ℕ)) (reads : ℕ) → let before = ends left reads (K.faults out.old) (K.may_hold out.old) in
        let now = ends left reads (K.faults out.new) (K.may_hold out.new) in
        let explains = ExplainsDemo packets (report W.opening W.after W.line_text) command.now before now in
        MatchResult result (λ _. explains None) (λ fault. explains (Some fault)) }
{
    good_capture();
    let mut text = FoldSink::new();
    match report(alloc, work, &end.tables, &mut text) {
        Ok(()) => {}
        Err(fault) => return Err(fault_of_report(fault)),
    }
    match write_demo(command, &totals(&end.tables), &text, out) {
        Ok(()) => Ok(()),
        Err(_) => Err(TopFault::WriteFault),
    }
}

// The demo of a command by a work, run on one thread. The work's options are the command's.
fn demo_by<N: RunName, W: FlowWork, K: Sink>(
    alloc: Global,
    command: &Command,
    hashing: &FlowHashKey,
    work: &W,
    number: u32,
    out: &mut K,
) -> Result<(), TopFault>
    requires accepted { IsAccepted command.now.options }
    requires few { command.now.count ≤ MOST_RECORDS }
    requires named { AreNamed N.packets command.now.options.packets (Some (traffic command.now.count command.now.number)) }
    ensures outcome { (left : Option (List ℕ)) (reads : ℕ) → let before = ends left reads (K.faults out.old) (K.may_hold out.old) in
        let now = ends left reads (K.faults out.new) (K.may_hold out.new) in
        let explains = ExplainsDemo N.packets (report W.opening W.after W.line_text) command.now before now in
        MatchResult result (λ _. explains None) (λ fault. explains (Some fault)) }
{
    good_capture();
    let mut source = TrafficSource::new(command.count, command.number);
    let options = &command.options;
    match run_to_report::<N, _, W>(alloc, options, hashing, work, &mut source, number) {
        Ok(end) => tell_demo::<W, K>(alloc, command, work, &end, out),
        Err(fault) => Err(fault_of_run(fault)),
    }
}

// The demo of a command by a work, run in threads.
fn threaded_demo_by<
    N: RunName + Send + Sync + Drop,
    W: FlowWork + Send + Sync + Drop,
    K: Sink,
    G: Gate + Sync,
    R: Threads + Wait + Sync,
>(
    rt: &R,
    alloc: Global,
    command: &Command,
    hashing: &FlowHashKey,
    work: &W,
    out: &mut K,
    gate: &G,
) -> Result<Trace, TopFault>
    requires accepted { IsAccepted command.now.options }
    requires few { command.now.count ≤ MOST_RECORDS }
    requires named { AreNamed N.packets command.now.options.packets (Some (traffic command.now.count command.now.number)) }
    ensures outcome { (left : Option (List ℕ)) (reads : ℕ) → let before = ends left reads (K.faults out.old) (K.may_hold out.old) in
        let now = ends left reads (K.faults out.new) (K.may_hold out.new) in
        let explains = ExplainsDemo N.packets (report W.opening W.after W.line_text) command.now before now in
        MatchResult result (λ _. explains None) (λ fault. explains (Some fault)) }
    ensures trace { IfOk result (IsTraceOf (terms_of W.cost_of command.now.options) (packets_made command.now.count command.now.number)) }
{
    good_capture();
    let mut traffic = TrafficSource::new(command.count, command.number);
    let options = &command.options;
    let end = match threads_to_report::<N, _, W, G, R>(
        rt,
        alloc,
        options,
        hashing,
        work,
        &mut traffic,
        gate,
    ) {
        Ok(end) => end,
        Err(fault) => return Err(fault_of_run(fault)),
    };
    match tell_demo::<W, K>(alloc, command, work, &end, out) {
        Ok(()) => Ok(trace_of(end)),
        Err(fault) => Err(fault),
    }
}

/// Runs the generated capture of the command's two values in threads, and writes of its report the
/// total line, its length in bytes and its sum, behind a line of the two values. Answers the run's
/// trace. That it returns isn't claimed.
pub fn threaded_demo<
    N: RunName + Send + Sync + Drop,
    K: Sink,
    G: Gate + Sync,
    R: Threads + Wait + Sync,
>(
    rt: &R,
    alloc: Global,
    command: &Command,
    hashing: &FlowHashKey,
    out: &mut K,
    gate: &G,
) -> Result<Trace, TopFault>
    requires accepted { IsAccepted command.now.options }
    requires few { command.now.count ≤ MOST_RECORDS }
    requires named { AreNamed N.packets command.now.options.packets (Some (traffic command.now.count command.now.number)) }
    ensures outcome { (left : Option (List ℕ)) (reads : ℕ) → let before = ends left reads (K.faults out.old) (K.may_hold out.old) in
        let now = ends left reads (K.faults out.new) (K.may_hold out.new) in
        let explains = ExplainsDemo N.packets (commands.report_by command.now.options.work) command.now before now in
        MatchResult result (λ _. explains None) (λ fault. explains (Some fault)) }
    ensures trace { IfOk result (IsTraceOf (commands.run_terms command.now.options) (packets_made command.now.count command.now.number)) }
{
    match work_of(&command.options) {
        WorkName::Count => {
            threaded_demo_by::<N, Count, K, G, R>(rt, alloc, command, hashing, &Count, out, gate)
        }
        WorkName::TcpFlags => {
            threaded_demo_by::<N, TcpFlags, K, G, R>(
                rt, alloc, command, hashing, &TcpFlags, out, gate,
            )
        }
        WorkName::Gaps => {
            threaded_demo_by::<N, Gaps, K, G, R>(rt, alloc, command, hashing, &Gaps, out, gate)
        }
        WorkName::OrderFold => {
            threaded_demo_by::<N, OrderFold, K, G, R>(
                rt, alloc, command, hashing, &OrderFold, out, gate,
            )
        }
    }
}

/// Runs the generated capture of the command's two values as [`serial_report`](crate::serial_report)
/// runs the one on a source, and writes of its report the total line, its length in bytes and its
/// sum, behind a line of the two values.
pub fn serial_demo<N: RunName, K: Sink>(
    alloc: Global,
    command: &Command,
    hashing: &FlowHashKey,
    number: u32,
    out: &mut K,
) -> Result<(), TopFault>
    requires accepted { IsAccepted command.now.options }
    requires few { command.now.count ≤ MOST_RECORDS }
    requires named { AreNamed N.packets command.now.options.packets (Some (traffic command.now.count command.now.number)) }
    // It is the same with any source beside it.
    ensures outcome { (left : Option (List ℕ)) (reads : ℕ) → let before = ends left reads (K.faults out.old) (K.may_hold out.old) in
        let now = ends left reads (K.faults out.new) (K.may_hold out.new) in
        let explains = ExplainsDemo N.packets (commands.report_by command.now.options.work) command.now before now in
        MatchResult result (λ _. explains None) (λ fault. explains (Some fault)) }
{
    match work_of(&command.options) {
        WorkName::Count => demo_by::<N, _, K>(alloc, command, hashing, &Count, number, out),
        WorkName::TcpFlags => demo_by::<N, _, K>(alloc, command, hashing, &TcpFlags, number, out),
        WorkName::Gaps => demo_by::<N, _, K>(alloc, command, hashing, &Gaps, number, out),
        WorkName::OrderFold => demo_by::<N, _, K>(alloc, command, hashing, &OrderFold, number, out),
    }
}
