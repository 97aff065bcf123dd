// The report of a run on one thread.
ghost use Rattle.std.specs.Prelude.{◌≡◌, ◌⊎◌, List, ℕ, length, ◌++◌, None, Some, Err, IfOk, IfErr, OnOk, OnErr, MatchResult};
ghost use Rattle.std.specs.Io.KnownBytes.{IsAtEnd};
ghost use Rattle.rss_base.specs.Written.{Gets, GetsFront};
ghost use Rattle.packet_fields.specs.declared.key.FlowKey.{FlowKey};
ghost use Rattle.packet_fields.specs.declared.packet.PacketInfo.{PacketInfo};
ghost use Rattle.flow_report.specs.Cause.{HasReportCause};
ghost use Rattle.flow_report.specs.JournalText.{HasWholeRounds};
ghost use Rattle.flow_report.specs.Report.{report};
ghost use Rattle.flow_report.specs.Tables.{StandTogether, tables_text};
ghost use Rattle.dispatch_loop.specs.Accepted.{IsAccepted};
ghost use Rattle.dispatch_loop.specs.Past.{AreNamed};
ghost use Rattle.dispatch_loop.specs.Terms.{terms_of};
ghost use Rattle.rsspp_run.specs.Ends.{IsSerialRun};
ghost use Rattle.rsspp_run.specs.OneTable.{AreAll};
ghost use Rattle.rsspp_run.specs.Refused.{Refuses, HasRunCause};
ghost use Rattle.rsspp_main.specs.Reports.{AreShown, IsReportable, IsSerialText, WritesSerial, bucket_by, journal_part, report_fault, run_fault};
ghost use Rattle.pcapng_reader.specs.Lent.{classic_known};
ghost use Rattle.rsspp_main.specs.Input.{IsUnbroken};
ghost use Rattle.rsspp_main.specs.Run.{ends_at, Explains, EndsBeforeText};

use crate::TopFault;
use crate::input::{fault_of_opening, fault_of_run_over};
use bucket_table::{Custody, FlowHashKey};
use command_words::Command;
use dispatch_loop::Options;
use flow_report::{ReportFault, journal_text, report, standing_tables};
use flow_work::{Count, FlowWork, Gaps, OrderFold, TcpFlags, WorkName};
use indirection::Journal;
use packet_fields::RunName;
use pcapng_reader::{NgOpening, NgSource};
use rss_base::{Sink, Source};
use rsspp_run::{RunEnd, RunFault, run_serial, tables_share_the_packets};
use std::alloc::Global;

/// The fault that a fault of a run is.
pub fn fault_of_run(fault: RunFault) -> TopFault
    ensures { result ≡ run_fault fault }
{
    match fault {
        RunFault::Capture(e) => TopFault::Capture(e),
        RunFault::ReadFault => TopFault::ReadFault,
        RunFault::TooMany { limit } => TopFault::TooMany { limit },
        RunFault::NoMemory => TopFault::NoMemory,
    }
}

/// The fault that a fault of a report is.
pub fn fault_of_report(fault: ReportFault) -> TopFault
    ensures { result ≡ report_fault fault }
{
    match fault {
        ReportFault::NoMemory => TopFault::NoMemory,
        ReportFault::WriteFault => TopFault::WriteFault,
    }
}

/// Runs a classic capture on one thread, and answers tables and a journal that can be written: together
/// the tables stand for the packets that the report is to show.
pub fn run_to_report<N: RunName, S: Source, W: FlowWork>(
    alloc: Global,
    options: &Options,
    hashing: &FlowHashKey,
    work: &W,
    source: &mut S,
    number: u32,
) -> Result<RunEnd<W>, RunFault>
    requires accepted { IsAccepted options.now }
    requires named { AreNamed N.packets options.now.packets (S.left source.old) }
    ensures run { IfOk result (λ end. (all : List PacketInfo) × AreAll options.now.packets (S.left source.old) all
        × IsSerialRun (terms_of W.cost_of options.now) options.now.pool number all end.journal end.custody.items end.worked.items
        × (shown : List PacketInfo) × AreShown N.packets (terms_of W.cost_of options.now) all shown
        × StandTogether W.opening W.after (bucket_by options.now.key (length options.now.start.owners)) shown end.tables.items) }
    ensures ready { IfOk result (λ end. IsReportable end.tables.items end.journal.entries) }
    ensures end { OnOk result (IsAtEnd (S.left source.new)) }
    ensures refused { IfErr result (λ fault. Refuses options.now.packets (S.left source.old) (S.left source.new) fault) }
    ensures memory { result ≡ Err RunFault.NoMemory → (source.new ≡ source.old)
        ⊎ ((all : List PacketInfo) × AreAll options.now.packets (S.left source.old) all × IsAtEnd (S.left source.new)) }
    ensures cause { HasRunCause (S.faults source.old) (S.faults source.new) result }
    ensures origin { S.origin source.new ≡ S.origin source.old }
{
    standing_tables::<W>();
    tables_share_the_packets::<W>();
    run_serial::<N, S, W>(alloc, options, hashing, work, source, number)
}

// Runs the capture on a source on one thread: the classic one that its bytes stand for. Answers what
// `run_to_report` does, unless a block breaks.
fn run_input<N: RunName, S: Source, W: FlowWork>(
    alloc: Global,
    options: &Options,
    hashing: &FlowHashKey,
    work: &W,
    source: &mut S,
    number: u32,
) -> Result<RunEnd<W>, TopFault>
    requires accepted { IsAccepted options.now }
    requires named { AreNamed N.packets options.now.packets (classic_known (S.left source.old)) }
    ensures run { IfOk result (λ end. (all : List PacketInfo) × AreAll options.now.packets (classic_known (S.left source.old)) all
        × IsSerialRun (terms_of W.cost_of options.now) options.now.pool number all end.journal end.custody.items end.worked.items
        × (shown : List PacketInfo) × AreShown N.packets (terms_of W.cost_of options.now) all shown
        × StandTogether W.opening W.after (bucket_by options.now.key (length options.now.start.owners)) shown end.tables.items) }
    ensures ready { IfOk result (λ end. IsReportable end.tables.items end.journal.entries) }
    ensures whole { OnOk result (IsUnbroken (S.left source.old) × IsAtEnd (S.left source.new) × (S.faults source.new ≡ S.faults source.old)) }
    ensures refused { IfErr result (λ fault. EndsBeforeText options.now.packets (S.left source.old) (S.left source.new) (S.faults source.old) (S.faults source.new) fault) }
    ensures origin { S.origin source.new ≡ S.origin source.old }
{
    let opening = match NgOpening::read(alloc, source) {
        Ok(opening) => opening,
        Err(error) => return Err(fault_of_opening(error)),
    };
    let mut input = NgSource::over(opening, source);
    let run = run_to_report::<N, _, W>(alloc, options, hashing, work, &mut input, number);
    let broken = input.broken();
    let _ = input.into_inner();
    match run {
        Ok(end) => match broken {
            Some(e) => Err(TopFault::Block(e)),
            None => Ok(end),
        },
        Err(fault) => Err(fault_of_run_over(fault, broken)),
    }
}

// Writes the journal and the custody of a run, where they are asked for.
fn write_journal<K: Sink>(
    alloc: Global,
    asked: bool,
    journal: &Journal,
    custody: &[Custody],
    out: &mut K,
) -> Result<(), ReportFault>
    requires whole { HasWholeRounds journal.now.entries }
    ensures ok { OnOk result (Gets (K.may_hold out.old) (K.may_hold out.new) (journal_part asked journal.now custody.now)) }
    ensures err { OnErr result (GetsFront (K.may_hold out.old) (K.may_hold out.new) (journal_part asked journal.now custody.now)) }
    ensures cause { HasReportCause (K.faults out.old) (K.faults out.new) result }
{
    if asked {
        journal_text(alloc, journal, custody, out)
    } else {
        Ok(())
    }
}

/// Writes the report of a run that has ended, and behind it its journal where that is asked for.
pub fn write_run<W: FlowWork, K: Sink>(
    alloc: Global,
    with_journal: bool,
    work: &W,
    end: &RunEnd<W>,
    out: &mut K,
) -> Result<(), ReportFault>
    requires ready { IsReportable end.now.tables.items end.now.journal.entries }
    ensures ok { (shown : List PacketInfo) (bucket_of : FlowKey → ℕ) → StandTogether W.opening W.after bucket_of shown end.now.tables.items
        → OnOk result (Gets (K.may_hold out.old) (K.may_hold out.new) (report W.opening W.after W.line_text shown ++ journal_part with_journal end.now.journal end.now.custody.items)) }
    ensures err { (shown : List PacketInfo) (bucket_of : FlowKey → ℕ) → StandTogether W.opening W.after bucket_of shown end.now.tables.items
        → OnErr result (GetsFront (K.may_hold out.old) (K.may_hold out.new) (report W.opening W.after W.line_text shown ++ journal_part with_journal end.now.journal end.now.custody.items)) }
    ensures cause { HasReportCause (K.faults out.old) (K.faults out.new) result }
{
    match report(alloc, work, &end.tables, out) {
        Ok(()) => {}
        Err(fault) => return Err(fault),
    }
    write_journal(alloc, with_journal, &end.journal, &end.custody, out)
}

// The report of a run by a work. The work's options are the command's.
fn report_by<N: RunName, S: Source, W: FlowWork, K: Sink>(
    alloc: Global,
    command: &Command,
    hashing: &FlowHashKey,
    work: &W,
    number: u32,
    source: &mut S,
    out: &mut K,
) -> Result<(), TopFault>
    requires accepted { IsAccepted command.now.options }
    requires named { AreNamed N.packets command.now.options.packets (classic_known (S.left source.old)) }
    ensures outcome { let at = ends_at S.left S.faults K.faults K.may_hold in
        let before = at source.old out.old in let now = at source.new out.new in
        let options = command.now.options in
        let writes = IsSerialText N.packets (report W.opening W.after W.line_text) command.now.journal (terms_of W.cost_of options) options.pool number in
        let explains = Explains options.packets writes before now in
        MatchResult result (λ _. explains None) (λ fault. explains (Some fault)) }
    ensures origin { S.origin source.new ≡ S.origin source.old }
{
    let end = match run_input::<N, S, W>(alloc, &command.options, hashing, work, source, number) {
        Ok(end) => end,
        Err(fault) => return Err(fault),
    };
    match write_run(alloc, command.journal, work, &end, out) {
        Ok(()) => Ok(()),
        Err(fault) => Err(fault_of_report(fault)),
    }
}

/// The work of a run.
pub fn work_of(options: &Options) -> WorkName
    ensures { result ≡ options.now.work }
{
    options.work
}

/// Reports the capture on the source, by the command's work, from the tables of the serial run
/// under a number, and behind the report writes the journal of that run where the command asks for
/// it. Nothing is written before the capture was read to its end.
pub fn serial_report<N: RunName, S: Source, K: Sink>(
    alloc: Global,
    command: &Command,
    hashing: &FlowHashKey,
    number: u32,
    source: &mut S,
    out: &mut K,
) -> Result<(), TopFault>
    requires accepted { IsAccepted command.now.options }
    requires named { AreNamed N.packets command.now.options.packets (classic_known (S.left source.old)) }
    ensures outcome { let at = ends_at S.left S.faults K.faults K.may_hold in
        let before = at source.old out.old in let now = at source.new out.new in
        let explains = Explains command.now.options.packets (WritesSerial N.packets command.now number) before now in
        MatchResult result (λ _. explains None) (λ fault. explains (Some fault)) }
    ensures origin { S.origin source.new ≡ S.origin source.old }
{
    match work_of(&command.options) {
        WorkName::Count => report_by::<N, S, Count, K>(
            alloc, command, hashing, &Count, number, source, out,
        ),
        WorkName::TcpFlags => {
            report_by::<N, S, TcpFlags, K>(alloc, command, hashing, &TcpFlags, number, source, out)
        }
        WorkName::Gaps => report_by::<N, S, Gaps, K>(
            alloc, command, hashing, &Gaps, number, source, out,
        ),
        WorkName::OrderFold => {
            report_by::<N, S, OrderFold, K>(
                alloc, command, hashing, &OrderFold, number, source, out,
            )
        }
    }
}
