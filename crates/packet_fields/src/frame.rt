ghost use Rattle.std.specs.Prelude.{◌≡◌};
ghost use Rattle.packet_fields.specs.Found.{found};
ghost use Rattle.packet_fields.specs.Frame.{is_tag, of_type, behind_type, carried, fields_of};

use crate::PacketInfo;
use crate::ipv4::{header_of, ipv4_fields};
use crate::ipv6::{ipv6_fields, is_ipv6};
use crate::key::OTHER;
use crate::wire::{
    ETHERNET_HEADER, MOST_TAGS, TYPE_AT, TYPE_IPV4, TYPE_IPV6, TYPE_SERVICE_TAG, TYPE_TAG, read_u16,
};
use rss_base::Link;

// The packet that a frame carries, by what the frame says of it.
#[derive(Clone, Copy)]
enum Packet<'a> {
    V4(&'a [u8]),
    V6(&'a [u8]),
    Other,
}

// The type says that a VLAN tag stands there.
fn is_tag(kind: u16) -> bool
    ensures { result ≡ is_tag kind }
{
    kind == TYPE_TAG || kind == TYPE_SERVICE_TAG
}

// The packet of a type.
fn of_type(kind: u16, packet: &[u8]) -> Packet<'_>
    ensures { found result ≡ of_type kind packet.now }
{
    match kind {
        TYPE_IPV4 => Packet::V4(packet),
        TYPE_IPV6 => Packet::V6(packet),
        _ => Packet::Other,
    }
}

// The packet behind a type field, with at most so many tags before it.
fn behind_type(tags: u8, bytes: &[u8]) -> Packet<'_>
    ensures { found result ≡ behind_type tags bytes.now }
{
    if bytes.len() < 2 {
        return Packet::Other;
    }
    let kind = read_u16(bytes, 0);
    if !is_tag(kind) {
        return of_type(kind, &bytes[2..]);
    }
    if tags == 0 {
        return Packet::Other;
    }
    if bytes.len() < 4 {
        return Packet::Other;
    }
    behind_type(tags - 1, &bytes[4..])
}

// The packet that is the whole frame, by its version.
fn of_version(frame: &[u8]) -> Packet<'_>
    ensures { found result ≡ carried Link.Raw frame.now }
{
    if frame.is_empty() {
        return Packet::Other;
    }
    match frame[0] / 16 {
        4 => Packet::V4(frame),
        6 => Packet::V6(frame),
        _ => Packet::Other,
    }
}

// The packet in a frame.
fn packet_in(link: Link, frame: &[u8]) -> Packet<'_>
    ensures { found result ≡ carried link frame.now }
{
    match link {
        Link::Ethernet => {
            if frame.len() >= ETHERNET_HEADER {
                behind_type(MOST_TAGS, &frame[TYPE_AT..])
            } else {
                Packet::Other
            }
        }
        Link::Raw => of_version(frame),
    }
}

/// The fields of a frame. Every list of bytes has them: what carries no whole header of IPv4 or
/// IPv6 is of class `Other`.
pub fn fields(link: Link, bytes: &[u8], nanos: u64, original: u32) -> PacketInfo
    ensures { result ≡ fields_of link bytes.now nanos original }
{
    let (key, flags) = match packet_in(link, bytes) {
        Packet::V4(packet) => match header_of(packet) {
            Some(header) => ipv4_fields(packet, header),
            None => (OTHER, 0),
        },
        Packet::V6(packet) => {
            if is_ipv6(packet) {
                ipv6_fields(packet)
            } else {
                (OTHER, 0)
            }
        }
        Packet::Other => (OTHER, 0),
    };
    PacketInfo {
        key,
        nanos,
        original,
        flags,
    }
}
