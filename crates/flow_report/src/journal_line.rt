// The lines of a journal text, each written in one piece.
ghost use Rattle.std.specs.Prelude.{◌≡◌, ◌++◌, map, codes, OnOk, OnErr};
ghost use Rattle.rss_base.specs.Written.{Gets, GetsFront};
ghost use Rattle.flow_report.specs.Cause.{HasReportCause};
ghost use Rattle.flow_report.specs.JournalText.{spaced, line_bytes, outcome_words, round_line, proposal_line, order_line, custody_line};
ghost use Rattle.flow_report.specs.JournalLine.{line_words};

use crate::ReportFault;
use bucket_table::Custody;
use indirection::{OrderEntry, Outcome, Proposal};
use itoa::{Buffer, Integer};
use rss_base::{NoMemory, Piece, Sink, Text, write_whole};

/// A line of a journal text.
#[derive(Clone, Copy)]
pub enum Line<'a> {
    /// The first line.
    Head,
    /// The owner of each bucket at the start.
    Owners(&'a [u8]),
    /// A round, with the load of each bucket and the base of each core.
    Weighed {
        at: u32,
        loads: &'a [u64],
        bases: &'a [u64],
    },
    /// A proposal of the round before it, and what came of it.
    Tried(Proposal, Outcome),
    /// An order, and what came of it.
    Ordered(OrderEntry),
    /// A time in which one core had a bucket.
    Held(Custody),
    /// The last line.
    End,
}

// Appends a number behind a space.
fn put_number<N: Integer>(value: N, text: &mut Text) -> Result<(), NoMemory>
    ensures { OnOk result (text.new ≡ text.old ++ (codes " " ++ N.text value)) }
{
    text.push_bytes(b" ")?;
    let mut buffer = Buffer::new();
    text.push_bytes(buffer.format(value).as_bytes())
}

// Appends numbers, each behind a space.
fn put_numbers<N: Integer>(numbers: &[N], text: &mut Text) -> Result<(), NoMemory>
    ensures { OnOk result (text.new ≡ text.old ++ spaced (map N.text numbers.now)) }
{
    for number in numbers {
        put_number(*number, text)?;
    }
    Ok(())
}

// Appends what came of a proposal or an order, behind a space.
fn put_outcome(outcome: &Outcome, text: &mut Text) -> Result<(), NoMemory>
    ensures { OnOk result (text.new ≡ text.old ++ spaced (outcome_words outcome.now)) }
{
    match outcome {
        Outcome::Moved { tail } => {
            text.push_bytes(b" moved")?;
            put_number(*tail, text)
        }
        Outcome::Placed => text.push_bytes(b" placed"),
        Outcome::Same => text.push_bytes(b" same"),
        Outcome::InPassage { tail, sent, word } => {
            text.push_bytes(b" passage")?;
            put_number(*tail, text)?;
            put_number(*sent, text)?;
            match word {
                Some(word) => put_number(*word, text),
                None => text.push_bytes(b" -"),
            }
        }
    }
}

// Appends the line of a round.
fn put_round(at: u32, loads: &[u64], bases: &[u64], text: &mut Text) -> Result<(), NoMemory>
    ensures { OnOk result (text.new ≡ text.old ++ line_bytes (round_line at loads.now bases.now)) }
{
    text.push_bytes(b"round")?;
    put_number(at, text)?;
    text.push_bytes(b" loads")?;
    put_numbers(loads, text)?;
    text.push_bytes(b" base")?;
    put_numbers(bases, text)?;
    text.push_bytes(b"\n")
}

// Appends the line of a proposal.
fn put_tried(proposal: &Proposal, outcome: &Outcome, text: &mut Text) -> Result<(), NoMemory>
    ensures { OnOk result (text.new ≡ text.old ++ line_bytes (proposal_line proposal.now outcome.now)) }
{
    text.push_all(&[
        Piece::Bytes(b"propose "),
        Piece::Number(u64::from(proposal.bucket)),
        Piece::Bytes(b" "),
        Piece::Number(u64::from(proposal.from)),
        Piece::Bytes(b" "),
        Piece::Number(u64::from(proposal.to)),
        Piece::Bytes(b" gain"),
    ])?;
    put_number(proposal.gain, text)?;
    put_outcome(outcome, text)?;
    text.push_bytes(b"\n")
}

// Appends the line of an order.
fn put_ordered(entry: &OrderEntry, text: &mut Text) -> Result<(), NoMemory>
    ensures { OnOk result (text.new ≡ text.old ++ line_bytes (order_line entry.now)) }
{
    text.push_all(&[
        Piece::Bytes(b"order "),
        Piece::Number(u64::from(entry.order.at)),
        Piece::Bytes(b" "),
        Piece::Number(u64::from(entry.order.bucket)),
        Piece::Bytes(b" "),
        Piece::Number(u64::from(entry.order.to)),
    ])?;
    put_outcome(&entry.outcome, text)?;
    text.push_bytes(b"\n")
}

// Appends the line of a custody.
fn put_held(custody: &Custody, text: &mut Text) -> Result<(), NoMemory>
    ensures { OnOk result (text.new ≡ text.old ++ line_bytes (custody_line custody.now)) }
{
    text.push_all(&[
        Piece::Bytes(b"custody "),
        Piece::Number(u64::from(custody.bucket)),
        Piece::Bytes(b" "),
        Piece::Number(u64::from(custody.core)),
        Piece::Bytes(b" "),
        Piece::Number(u64::from(custody.from)),
        Piece::Bytes(b" "),
        Piece::Number(u64::from(custody.to)),
        Piece::Bytes(b"\n"),
    ])
}

// Makes a line.
fn put_line(line: &Line<'_>, text: &mut Text) -> Result<(), NoMemory>
    ensures { OnOk result (text.new ≡ line_bytes (line_words line.now)) }
{
    text.clear();
    match line {
        Line::Head => text.push_bytes(b"journal\n"),
        Line::Owners(owners) => {
            text.push_bytes(b"table")?;
            put_numbers(owners, text)?;
            text.push_bytes(b"\n")
        }
        Line::Weighed { at, loads, bases } => put_round(*at, loads, bases, text),
        Line::Tried(proposal, outcome) => put_tried(proposal, outcome, text),
        Line::Ordered(entry) => put_ordered(entry, text),
        Line::Held(custody) => put_held(custody, text),
        Line::End => text.push_bytes(b"end\n"),
    }
}

/// Writes a line.
pub fn write_line<K: Sink>(line: &Line<'_>, text: &mut Text, out: &mut K) -> Result<(), ReportFault>
    ensures ok { OnOk result (Gets (K.may_hold out.old) (K.may_hold out.new)
        (line_bytes (line_words line.now))) }
    ensures err { OnErr result (GetsFront (K.may_hold out.old) (K.may_hold out.new)
        (line_bytes (line_words line.now))) }
    ensures cause { HasReportCause (K.faults out.old) (K.faults out.new) result }
{
    if put_line(line, text).is_err() {
        return Err(ReportFault::NoMemory);
    }
    match write_whole(out, text.bytes()) {
        Ok(()) => Ok(()),
        Err(_) => Err(ReportFault::WriteFault),
    }
}
