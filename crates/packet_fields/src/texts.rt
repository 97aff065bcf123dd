ghost use Rattle.std.specs.Prelude.{◌≡◌, ◌++◌, ◌/◌, ◌%◌, codes, OnOk, OnErr};
ghost use Rattle.packet_fields.specs.KeyText.{key_text_of, ends_text, addresses_text};
ghost use Rattle.rss_base.specs.Piece.{GrowsByFront};

use crate::ipv6_text::{ipv6_addresses_text, ipv6_ends_text};
use crate::{Class, FlowKey};
use rss_base::{NoMemory, Piece, Text};

/// Appends the text of a key, without a line end: `tcp 10.0.0.1:1024 > 10.0.0.2:80`, likewise
/// `udp`, `ip 10.0.0.1 > 10.0.0.2 proto 1`, or `other`; over IPv6 `tcp6 [A]:1024 > [B]:80`, likewise
/// `udp6`, and `ip6 A > B proto 58`, where an address has eight groups of four hexadecimal digits,
/// as `fe80:0000:0000:0000:0000:0000:0000:0001`. After [`NoMemory`] a front of it was appended.
pub fn key_text(key: &FlowKey, text: &mut Text) -> Result<(), NoMemory>
    ensures ok { OnOk result (text.new ≡ text.old ++ key_text_of key.now) }
    ensures err { OnErr result (GrowsByFront text.old text.new (key_text_of key.now)) }
{
    match key.class {
        Class::Tcp => ends_text(b"tcp ", key, text),
        Class::Udp => ends_text(b"udp ", key, text),
        Class::Ip => addresses_text(key, text),
        Class::Tcp6 => ipv6_ends_text(b"tcp6 ", key, text),
        Class::Udp6 => ipv6_ends_text(b"udp6 ", key, text),
        Class::Ip6 => ipv6_addresses_text(key, text),
        Class::Other => other_text(text),
    }
}

// A name, and both ends with their ports.
fn ends_text(name: &[u8], key: &FlowKey, text: &mut Text) -> Result<(), NoMemory>
    ensures ok { OnOk result (text.new ≡ text.old ++ ends_text name.now key.now) }
    ensures err { OnErr result (GrowsByFront text.old text.new (ends_text name.now key.now)) }
{
    let s = octets(key.source);
    let d = octets(key.destination);
    text.push_all(&[
        Piece::Bytes(name),
        Piece::Number(s.0),
        Piece::Bytes(b"."),
        Piece::Number(s.1),
        Piece::Bytes(b"."),
        Piece::Number(s.2),
        Piece::Bytes(b"."),
        Piece::Number(s.3),
        Piece::Bytes(b":"),
        Piece::Number(u64::from(key.source_port)),
        Piece::Bytes(b" > "),
        Piece::Number(d.0),
        Piece::Bytes(b"."),
        Piece::Number(d.1),
        Piece::Bytes(b"."),
        Piece::Number(d.2),
        Piece::Bytes(b"."),
        Piece::Number(d.3),
        Piece::Bytes(b":"),
        Piece::Number(u64::from(key.destination_port)),
    ])
}

// Both addresses, and the protocol.
fn addresses_text(key: &FlowKey, text: &mut Text) -> Result<(), NoMemory>
    ensures ok { OnOk result (text.new ≡ text.old ++ addresses_text key.now) }
    ensures err { OnErr result (GrowsByFront text.old text.new (addresses_text key.now)) }
{
    let s = octets(key.source);
    let d = octets(key.destination);
    text.push_all(&[
        Piece::Bytes(b"ip "),
        Piece::Number(s.0),
        Piece::Bytes(b"."),
        Piece::Number(s.1),
        Piece::Bytes(b"."),
        Piece::Number(s.2),
        Piece::Bytes(b"."),
        Piece::Number(s.3),
        Piece::Bytes(b" > "),
        Piece::Number(d.0),
        Piece::Bytes(b"."),
        Piece::Number(d.1),
        Piece::Bytes(b"."),
        Piece::Number(d.2),
        Piece::Bytes(b"."),
        Piece::Number(d.3),
        Piece::Bytes(b" proto "),
        Piece::Number(u64::from(key.protocol)),
    ])
}

fn other_text(text: &mut Text) -> Result<(), NoMemory>
    ensures ok { OnOk result (text.new ≡ text.old ++ codes "other") }
    ensures err { OnErr result (GrowsByFront text.old text.new (codes "other")) }
{
    text.push_all(&[Piece::Bytes(b"other")])
}

// The four numbers of an IPv4 address.
fn octets(address: u128) -> (u64, u64, u64, u64)
    ensures first { result.0 ≡ address / 16777216 % 256 }
    ensures second { result.1 ≡ address / 65536 % 256 }
    ensures third { result.2 ≡ address / 256 % 256 }
    ensures fourth { result.3 ≡ address % 256 }
{
    (
        (address / 16_777_216 % 256) as u64,
        (address / 65536 % 256) as u64,
        (address / 256 % 256) as u64,
        (address % 256) as u64,
    )
}
