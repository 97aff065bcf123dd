// The lines of a report, each written in one piece.
ghost use Rattle.std.specs.Prelude.{◌≡◌, OnOk, OnErr};
ghost use Rattle.rss_base.specs.Written.{Gets, GetsFront};
ghost use Rattle.flow_report.specs.Report.{flow_line, total_line};
ghost use Rattle.flow_report.specs.Cause.{HasReportCause};

use crate::{ReportFault, Totals};
use flow_work::FlowWork;
use packet_fields::{FlowKey, key_text};
use rss_base::{NoMemory, Piece, Sink, Text, write_whole};

// Makes the line of a flow.
fn put_flow<W: FlowWork>(
    work: &W,
    key: &FlowKey,
    state: &W::State,
    text: &mut Text,
) -> Result<(), NoMemory>
    ensures { OnOk result (text.new ≡ flow_line W.line_text key.now state.now) }
{
    text.clear();
    key_text(key, text)?;
    text.push_bytes(b" ")?;
    work.line(state, text)?;
    text.push_bytes(b"\n")
}

// Makes the total line.
fn put_total(totals: &Totals, text: &mut Text) -> Result<(), NoMemory>
    ensures { OnOk result (text.new ≡
        total_line totals.now.flows totals.now.packets totals.now.bytes) }
{
    text.clear();
    text.push_all(&[
        Piece::Bytes(b"total flows "),
        Piece::Number(totals.flows),
        Piece::Bytes(b" packets "),
        Piece::Number(totals.packets),
        Piece::Bytes(b" bytes "),
        Piece::Number(totals.bytes),
        Piece::Bytes(b"\n"),
    ])
}

/// Writes the line of a flow.
pub fn write_flow<W: FlowWork, K: Sink>(
    work: &W,
    key: &FlowKey,
    state: &W::State,
    text: &mut Text,
    out: &mut K,
) -> Result<(), ReportFault>
    ensures ok { OnOk result (Gets (K.may_hold out.old) (K.may_hold out.new)
        (flow_line W.line_text key.now state.now)) }
    ensures err { OnErr result (GetsFront (K.may_hold out.old) (K.may_hold out.new)
        (flow_line W.line_text key.now state.now)) }
    ensures cause { HasReportCause (K.faults out.old) (K.faults out.new) result }
{
    if put_flow(work, key, state, text).is_err() {
        return Err(ReportFault::NoMemory);
    }
    match write_whole(out, text.bytes()) {
        Ok(()) => Ok(()),
        Err(_) => Err(ReportFault::WriteFault),
    }
}

/// Writes the total line.
pub fn write_total<K: Sink>(
    totals: &Totals,
    text: &mut Text,
    out: &mut K,
) -> Result<(), ReportFault>
    ensures ok { OnOk result (Gets (K.may_hold out.old) (K.may_hold out.new)
        (total_line totals.now.flows totals.now.packets totals.now.bytes)) }
    ensures err { OnErr result (GetsFront (K.may_hold out.old) (K.may_hold out.new)
        (total_line totals.now.flows totals.now.packets totals.now.bytes)) }
    ensures cause { HasReportCause (K.faults out.old) (K.faults out.new) result }
{
    if put_total(totals, text).is_err() {
        return Err(ReportFault::NoMemory);
    }
    match write_whole(out, text.bytes()) {
        Ok(()) => Ok(()),
        Err(_) => Err(ReportFault::WriteFault),
    }
}
