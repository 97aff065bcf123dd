// The packets of a capture, one by one.
ghost use Rattle.std.specs.Prelude.{◌≡◌, ◌≢◌, ◌≤◌, Option, Result, IfSome};
ghost use Rattle.pcap_reader.specs.Capture.{Captured};
ghost use Rattle.pcap_reader.specs.Reading.{Proceeds};
ghost use Rattle.pcap_reader.specs.Stream.{HasReadCause};
ghost use Rattle.pcap_reader.specs.declared.fault.ReadError.{ReadError};
ghost use Rattle.dispatch_loop.specs.Packets.{packet_answer};

use packet_fields::{PacketInfo, fields};
use pcap_reader::{MOST_RECORDS, Progress, ReadError, Reader};
use rss_base::Source;

/// The fields of the next record's frame, or `None` at the end of the capture.
pub fn next_packet<S: Source>(
    reader: &mut Reader,
    source: &mut S,
) -> Result<Option<PacketInfo>, ReadError>
    requires { reader.old.given ≤ MOST_RECORDS }
    ensures proceeds { (answer : Result (Option Captured) ReadError) × (result ≡ packet_answer answer)
        × Proceeds reader.old reader.new (S.left source.old) (S.left source.new) answer }
    ensures over { reader.old.progress ≢ Progress.Going → source.new ≡ source.old }
    ensures cause { reader.old.progress ≡ Progress.Going → HasReadCause (S.faults source.old) (S.faults source.new) result }
    ensures origin { S.origin source.new ≡ S.origin source.old }
{
    match reader.next(source) {
        Ok(Some(record)) => Ok(Some(fields(
            record.link,
            record.bytes,
            record.nanos,
            record.original,
        ))),
        Ok(None) => Ok(None),
        Err(error) => Err(error),
    }
}
