// The third rule, its first half: the next record is read.
ghost use Rattle.std.specs.Prelude.{◌≡◌, ◌≢◌, ◌≤◌, ◌⊎◌, Option, None, Some};
ghost use Rattle.packet_fields.specs.declared.packet.PacketInfo.{PacketInfo};
ghost use Rattle.dispatch_loop.specs.declared.dispatcher_end.DispatcherEnd.{DispatcherEnd};
ghost use Rattle.dispatch_loop.specs.Past.{Past, past, IsFed, IsReading};
ghost use Rattle.dispatch_loop.specs.Intake.{answer_held, answer_end};
ghost use Rattle.dispatch_loop.specs.Rules.{BlamesRead};

use crate::DispatcherEnd;
use crate::packets::next_packet;
use packet_fields::PacketInfo;
use pcap_reader::Reader;
use rss_base::Source;

/// The next packet, or the end of the stream: `sent` packets were read before it, and packet number
/// `limit`, counted from 0, is one too many.
pub fn read_next<S: Source>(
    limit: u32,
    sent: u32,
    reader: &mut Reader,
    source: &mut S,
) -> Result<PacketInfo, DispatcherEnd>
    requires { (p : Past) × IsReading limit p None reader.old (S.left source.old) × (reader.old.given ≡ sent) }
    ensures fed { (p : Past) → IsReading limit p None reader.old (S.left source.old) → reader.old.given ≡ sent → IsFed limit p (answer_held result) (answer_end result) reader.new (S.left source.new) }
    ensures blames { BlamesRead (answer_end result) (S.faults source.old) (S.faults source.new) }
    ensures origin { S.origin source.new ≡ S.origin source.old }
{
    match next_packet(reader, source) {
        Ok(Some(packet)) if sent < limit => Ok(packet),
        Ok(Some(_)) => Err(DispatcherEnd::TooMany { limit }),
        Ok(None) => Err(DispatcherEnd::AtEnd),
        Err(error) => Err(DispatcherEnd::Refused(error)),
    }
}
