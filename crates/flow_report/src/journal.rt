ghost use Rattle.std.specs.Prelude.{map, OnOk, OnErr};
ghost use Rattle.std.specs.List.{flat_map, zip};
ghost use Rattle.rss_base.specs.Written.{Gets, GetsFront};
ghost use Rattle.indirection.specs.JournalView.{journal_view};
ghost use Rattle.flow_report.specs.Cause.{HasReportCause};
ghost use Rattle.flow_report.specs.JournalText.{line_bytes, proposal_line, entry_lines, custody_line, journal_bytes, HasWholeRounds};

use crate::ReportFault;
use crate::journal_line::{Line, write_line};
use bucket_table::Custody;
use indirection::{Entry, Journal, Outcome, Proposal};
use rss_base::{Sink, Text};
use std::alloc::Global;

// Writes one line for each proposal that has an outcome.
fn write_tried<K: Sink>(
    proposals: &[Proposal],
    outcomes: &[Outcome],
    text: &mut Text,
    out: &mut K,
) -> Result<(), ReportFault>
    ensures ok { OnOk result (Gets (K.may_hold out.old) (K.may_hold out.new)
        (flat_map line_bytes (map (λ tried. proposal_line tried.0 tried.1) (zip proposals.now outcomes.now)))) }
    ensures err { OnErr result (GetsFront (K.may_hold out.old) (K.may_hold out.new)
        (flat_map line_bytes (map (λ tried. proposal_line tried.0 tried.1) (zip proposals.now outcomes.now)))) }
    ensures cause { HasReportCause (K.faults out.old) (K.faults out.new) result }
{
    'tried: for (proposal, outcome) in proposals.iter().zip(outcomes.iter()) {
        match write_line(&Line::Tried(*proposal, *outcome), text, out) {
            Ok(()) => {}
            Err(fault) => return Err(fault),
        }
    }
    Ok(())
}

// Writes the lines of an entry.
fn write_entry<K: Sink>(entry: &Entry, text: &mut Text, out: &mut K) -> Result<(), ReportFault>
    ensures ok { OnOk result (Gets (K.may_hold out.old) (K.may_hold out.new)
        (flat_map line_bytes (entry_lines entry.now))) }
    ensures err { OnErr result (GetsFront (K.may_hold out.old) (K.may_hold out.new)
        (flat_map line_bytes (entry_lines entry.now))) }
    ensures cause { HasReportCause (K.faults out.old) (K.faults out.new) result }
{
    match entry {
        Entry::Round(round) => {
            let weighed = Line::Weighed {
                at: round.at(),
                loads: round.loads().bucket(),
                bases: round.loads().base(),
            };
            match write_line(&weighed, text, out) {
                Ok(()) => write_tried(round.proposals(), round.outcomes(), text, out),
                Err(fault) => Err(fault),
            }
        }
        Entry::Order(order) => write_line(&Line::Ordered(*order), text, out),
    }
}

// Writes the lines of all entries.
fn write_entries<K: Sink>(
    entries: &[Entry],
    text: &mut Text,
    out: &mut K,
) -> Result<(), ReportFault>
    ensures ok { OnOk result (Gets (K.may_hold out.old) (K.may_hold out.new)
        (flat_map line_bytes (flat_map entry_lines entries.now))) }
    ensures err { OnErr result (GetsFront (K.may_hold out.old) (K.may_hold out.new)
        (flat_map line_bytes (flat_map entry_lines entries.now))) }
    ensures cause { HasReportCause (K.faults out.old) (K.faults out.new) result }
{
    for entry in entries {
        match write_entry(entry, text, out) {
            Ok(()) => {}
            Err(fault) => return Err(fault),
        }
    }
    Ok(())
}

// Writes one line for each custody.
fn write_held<K: Sink>(custody: &[Custody], text: &mut Text, out: &mut K) -> Result<(), ReportFault>
    ensures ok { OnOk result (Gets (K.may_hold out.old) (K.may_hold out.new)
        (flat_map line_bytes (map custody_line custody.now))) }
    ensures err { OnErr result (GetsFront (K.may_hold out.old) (K.may_hold out.new)
        (flat_map line_bytes (map custody_line custody.now))) }
    ensures cause { HasReportCause (K.faults out.old) (K.faults out.new) result }
{
    for held in custody {
        match write_line(&Line::Held(*held), text, out) {
            Ok(()) => {}
            Err(fault) => return Err(fault),
        }
    }
    Ok(())
}

/// Writes a journal: its starting table, its rounds and orders with what came of them, and behind
/// them the custody, in the order in which it is handed in. After a fault a front of the text was
/// written.
pub fn journal_text<K: Sink>(
    alloc: Global,
    journal: &Journal,
    custody: &[Custody],
    out: &mut K,
) -> Result<(), ReportFault>
    requires whole { HasWholeRounds journal.now.entries }
    ensures ok { OnOk result (Gets (K.may_hold out.old) (K.may_hold out.new)
        (journal_bytes (journal_view journal.now) custody.now)) }
    ensures err { OnErr result (GetsFront (K.may_hold out.old) (K.may_hold out.new)
        (journal_bytes (journal_view journal.now) custody.now)) }
    ensures cause { HasReportCause (K.faults out.old) (K.faults out.new) result }
{
    let mut text = Text::new(alloc);
    match write_line(&Line::Head, &mut text, out) {
        Ok(()) => {}
        Err(fault) => return Err(fault),
    }
    match write_line(&Line::Owners(journal.start().owners()), &mut text, out) {
        Ok(()) => {}
        Err(fault) => return Err(fault),
    }
    match write_entries(journal.entries(), &mut text, out) {
        Ok(()) => {}
        Err(fault) => return Err(fault),
    }
    match write_held(custody, &mut text, out) {
        Ok(()) => {}
        Err(fault) => return Err(fault),
    }
    write_line(&Line::End, &mut text, out)
}

#[cfg(test)]
mod tests;
