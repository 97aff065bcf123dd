// The header of the record that comes next.
ghost use Rattle.std.specs.Prelude.{◌≡◌, ◌≤◌, ◌+◌, ◌*◌, length, IfOk, IfErr, IfSome, OnOk};
ghost use Rattle.std.specs.Io.KnownBytes.{prepend_known};
ghost use Rattle.pcap_reader.specs.Capture.{number_at, unit};
ghost use Rattle.pcap_reader.specs.Stream.{Comes, Stops, HasReadCause, read_record, behind_record};

use crate::format::{LONGEST, NANOS_PER_MICRO, NANOS_PER_SECOND, RECORD_HEADER};
use crate::numbers::u32_at;
use crate::window::{ROOM, Window, fill};
use crate::{Break, Form, Fraction, ReadError};
use rss_base::Source;

/// What the header of a record tells.
#[derive(Clone, Copy, Debug)]
pub struct Head {
    pub nanos: u64,
    pub original: u32,
    pub captured: u32,
}

// How many nanoseconds a unit of the fraction has.
fn unit_of(fraction: Fraction) -> u64
    ensures value { result ≡ unit fraction }
    ensures small { result ≤ NANOS_PER_MICRO }
{
    match fraction {
        Fraction::Micros => NANOS_PER_MICRO,
        Fraction::Nanos => 1,
    }
}

/// Reads the header of a record.
pub fn head_of(form: Form, bytes: &[u8]) -> Head
    requires { RECORD_HEADER ≤ length bytes.now }
    ensures nanos { result.nanos ≡ number_at form.order 4 0 bytes.now * NANOS_PER_SECOND + number_at form.order 4 4 bytes.now * unit form.fraction }
    ensures captured { result.captured ≡ number_at form.order 4 8 bytes.now }
    ensures original { result.original ≡ number_at form.order 4 12 bytes.now }
{
    let seconds = u64::from(u32_at(form.order, bytes, 0));
    let fraction = u64::from(u32_at(form.order, bytes, 4));
    Head {
        nanos: seconds * NANOS_PER_SECOND + fraction * unit_of(form.fraction),
        original: u32_at(form.order, bytes, 12),
        captured: u32_at(form.order, bytes, 8),
    }
}

/// Reads the next record, behind `at` others: its header, and its captured bytes to the front of the window.
pub fn next_head<S: Source>(
    window: &mut Window,
    source: &mut S,
    form: Form,
    at: u32,
) -> Result<Option<Head>, ReadError>
    ensures comes { Comes form at (prepend_known window.old (S.left source.old))
        (prepend_known (behind_record result window.new) (S.left source.new)) (read_record form result window.new) }
    ensures stops { IfErr result (λ error. Stops form error (prepend_known window.old (S.left source.old)) (S.left source.new)) }
    ensures room { OnOk result (length window.new ≤ ROOM) }
    ensures fits { IfOk result (λ next. IfSome next (λ head. head.captured ≤ length window.new)) }
    ensures cause { HasReadCause (S.faults source.old) (S.faults source.new) result }
    ensures origin { S.origin source.new ≡ S.origin source.old }
{
    if fill(window, source, RECORD_HEADER).is_err() {
        return Err(ReadError::ReadFault);
    }
    let have = window.bytes().len();
    if have == 0 {
        return Ok(None);
    }
    if have < RECORD_HEADER {
        return Err(ReadError::Broken(Break::ShortRecord {
            at,
            have: have as u32,
        }));
    }
    let head = head_of(form, window.bytes());
    if head.captured > LONGEST {
        return Err(ReadError::Broken(Break::TooLong {
            at,
            length: head.captured,
        }));
    }
    window.consume(RECORD_HEADER);
    if fill(window, source, head.captured as usize).is_err() {
        return Err(ReadError::ReadFault);
    }
    let have = window.bytes().len();
    if have < head.captured as usize {
        return Err(ReadError::Broken(Break::ShortRecord {
            at,
            have: (RECORD_HEADER + have) as u32,
        }));
    }
    Ok(Some(head))
}
