ghost use Rattle.std.specs.Prelude.{◌≡◌, ◌≤◌, ◌<◌, ◌+◌, ◌++◌, length, take};
ghost use Rattle.traffic_gen.specs.Packet.{outer_headers, tcp_frame, udp_frame};
ghost use Rattle.traffic_gen.specs.Traffic.{record_header, record_of};

use crate::draw::flow_of;
use crate::frame::{flags_of, ipv4_header, length_of, record_header, tcp_header, udp_header};
use crate::layout::{
    BEFORE_PORTS, ETHERNET, ETHERNET_LENGTH, FIRST_PORT, FIRST_SOURCE, TCP_CAPTURED, UDP_CAPTURED,
};
use packet_fields::{PROTOCOL_TCP, PROTOCOL_UDP};

/// Bytes of the longest record.
pub const LONGEST_RECORD: usize = 70;

/// Writes a piece at a place, and answers the place behind it.
pub fn put(bytes: &mut [u8], at: usize, piece: &[u8]) -> usize
    requires { at + length piece.now ≤ length bytes.old }
    ensures behind { result ≡ at + length piece.now }
    ensures bytes { take result bytes.new ≡ take at bytes.old ++ piece.now }
{
    let behind = at + piece.len();
    bytes[at..behind].copy_from_slice(piece);
    behind
}

// Writes the headers that both kinds of record have, and answers the place behind them.
fn put_headers(bytes: &mut [u8], captured: u32, protocol: u8, flow: u16, index: u32) -> usize
    requires room { LONGEST_RECORD ≤ length bytes.old }
    requires flow { flow < 1024 }
    ensures behind { result ≡ 50 }
    ensures bytes { take result bytes.new ≡ record_header captured index ++ outer_headers protocol flow index }
{
    let total = (length_of(index) - ETHERNET_LENGTH) as u16;
    let identification = (index % (1 << 16)) as u16;
    let source = FIRST_SOURCE + u32::from(flow);
    let at = put(bytes, 0, &record_header(captured, index));
    let at = put(bytes, at, &ETHERNET);
    put(
        bytes,
        at,
        &ipv4_header(total, identification, protocol, source),
    )
}

// Writes the record of a TCP flow at an index, and answers its length.
fn put_tcp(bytes: &mut [u8], flow: u16, index: u32) -> usize
    requires room { LONGEST_RECORD ≤ length bytes.old }
    requires flow { flow < 1024 }
    ensures length { result ≡ 70 }
    ensures bytes { take result bytes.new ≡ record_header TCP_CAPTURED index ++ tcp_frame flow index }
{
    let at = put_headers(bytes, TCP_CAPTURED, PROTOCOL_TCP, flow, index);
    put(
        bytes,
        at,
        &tcp_header(FIRST_PORT + flow, index, flags_of(index)),
    )
}

// Writes the record of a UDP flow at an index, and answers its length.
fn put_udp(bytes: &mut [u8], flow: u16, index: u32) -> usize
    requires room { LONGEST_RECORD ≤ length bytes.old }
    requires flow { flow < 1024 }
    ensures length { result ≡ 58 }
    ensures bytes { take result bytes.new ≡ record_header UDP_CAPTURED index ++ udp_frame flow index }
{
    let length = (length_of(index) - BEFORE_PORTS) as u16;
    let at = put_headers(bytes, UDP_CAPTURED, PROTOCOL_UDP, flow, index);
    put(bytes, at, &udp_header(FIRST_PORT + flow, length))
}

/// Writes the record at an index to the front, and answers its length.
pub fn put_record(bytes: &mut [u8], number: u32, index: u32) -> usize
    requires { LONGEST_RECORD ≤ length bytes.old }
    ensures within { result ≤ LONGEST_RECORD }
    ensures some { 0 < result }
    ensures bytes { take result bytes.new ≡ record_of number index }
{
    let flow = flow_of(number, index);
    if flow % 2 == 0 {
        put_tcp(bytes, flow, index)
    } else {
        put_udp(bytes, flow, index)
    }
}
