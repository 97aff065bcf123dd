// The headers of a generated record.
ghost use Rattle.std.specs.Prelude.{◌≡◌, ◌≤◌, ◌<◌, ◌^◌};
ghost use Rattle.traffic_gen.specs.Packet.{ipv4_header, tcp_header, udp_header, length_of, flags_of};
ghost use Rattle.traffic_gen.specs.Traffic.{record_header};

use crate::layout::{
    ACK, DATA_OFFSET, DESTINATION, FIN_ACK, FLAGS_PERIOD, LENGTHS, LONGER_BY, MICROSECONDS_APART,
    PACKETS_PER_SECOND, SHORTEST, SYN, TCP_DESTINATION, TIME_TO_LIVE, UDP_DESTINATION,
    VERSION_AND_LENGTH, WINDOW,
};
use byteorder::{BigEndian, ByteOrder, LittleEndian};

/// The length on the wire of the frame at an index, in bytes.
pub fn length_of(index: u32) -> u32
    ensures { result ≡ length_of index }
{
    SHORTEST + LONGER_BY * (index % LENGTHS)
}

/// The control bits of the packet at an index, where it is of a TCP flow.
pub fn flags_of(index: u32) -> u8
    ensures { result ≡ flags_of index }
{
    match index % FLAGS_PERIOD {
        0 => SYN,
        15 => FIN_ACK,
        _ => ACK,
    }
}

/// The header of a record with so many captured bytes.
pub fn record_header(captured: u32, index: u32) -> [u8; 16]
    ensures { result ≡ record_header captured index }
{
    let mut header = [0; 16];
    LittleEndian::write_u32(&mut header, index / PACKETS_PER_SECOND);
    LittleEndian::write_u32(
        &mut header[4..],
        MICROSECONDS_APART * (index % PACKETS_PER_SECOND),
    );
    LittleEndian::write_u32(&mut header[8..], captured);
    LittleEndian::write_u32(&mut header[12..], length_of(index));
    header
}

/// An IPv4 header.
pub fn ipv4_header(total: u16, identification: u16, protocol: u8, source: u32) -> [u8; 20]
    ensures { result ≡ ipv4_header total identification protocol source }
{
    let mut header = [0; 20];
    header[0] = VERSION_AND_LENGTH;
    BigEndian::write_u16(&mut header[2..], total);
    BigEndian::write_u16(&mut header[4..], identification);
    header[8] = TIME_TO_LIVE;
    header[9] = protocol;
    BigEndian::write_u32(&mut header[12..], source);
    BigEndian::write_u32(&mut header[16..], DESTINATION);
    header
}

/// A TCP header.
pub fn tcp_header(port: u16, sequence: u32, flags: u8) -> [u8; 20]
    ensures { result ≡ tcp_header port sequence flags }
{
    let mut header = [0; 20];
    BigEndian::write_u16(&mut header, port);
    BigEndian::write_u16(&mut header[2..], TCP_DESTINATION);
    BigEndian::write_u32(&mut header[4..], sequence);
    header[12] = DATA_OFFSET;
    header[13] = flags;
    BigEndian::write_u16(&mut header[14..], WINDOW);
    header
}

/// A UDP header.
pub fn udp_header(port: u16, length: u16) -> [u8; 8]
    ensures { result ≡ udp_header port length }
{
    let mut header = [0; 8];
    BigEndian::write_u16(&mut header, port);
    BigEndian::write_u16(&mut header[2..], UDP_DESTINATION);
    BigEndian::write_u16(&mut header[4..], length);
    header
}
