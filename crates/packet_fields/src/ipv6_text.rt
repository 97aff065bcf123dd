// The texts of IPv6 keys.
ghost use Rattle.std.specs.Prelude.{◌≡◌, ◌<◌, ◌++◌, ◌/◌, ◌%◌, ◌^◌, OnOk, OnErr};
ghost use Rattle.rss_base.specs.Hex.{hex_text};
ghost use Rattle.rss_base.specs.Piece.{GrowsByFront};
ghost use Rattle.packet_fields.specs.KeyText.{ipv6_address_text, ipv6_ends_text, ipv6_addresses_text};

use crate::FlowKey;
use rss_base::{NoMemory, Piece, Text, hex4};

// A group of an address: the sixteen bits with so many bits behind them.
fn group(address: u128, behind: u32) -> [u8; 4]
    requires { behind < 128 }
    ensures { result ≡ hex_text 4 (address / 2 ^ behind % 65536) }
{
    hex4((address >> behind & 0xffff) as u16)
}

// The text of an IPv6 address: eight groups of four hexadecimal digits with colons.
fn address_text(address: u128) -> [u8; 39]
    ensures { result ≡ ipv6_address_text address }
{
    let a = group(address, 112);
    let b = group(address, 96);
    let c = group(address, 80);
    let d = group(address, 64);
    let e = group(address, 48);
    let f = group(address, 32);
    let g = group(address, 16);
    let h = group(address, 0);
    [
        a[0], a[1], a[2], a[3], b':', b[0], b[1], b[2], b[3], b':', c[0], c[1], c[2], c[3], b':',
        d[0], d[1], d[2], d[3], b':', e[0], e[1], e[2], e[3], b':', f[0], f[1], f[2], f[3], b':',
        g[0], g[1], g[2], g[3], b':', h[0], h[1], h[2], h[3],
    ]
}

// Appends the pieces of both ends: a name, the texts of the addresses, and the ports of a key.
fn put_ends<'a>(
    name: &'a [u8],
    source: &'a [u8],
    destination: &'a [u8],
    key: &FlowKey,
    text: &mut Text,
) -> Result<(), NoMemory>
    requires source { source.now ≡ ipv6_address_text key.now.source }
    requires destination { destination.now ≡ ipv6_address_text key.now.destination }
    ensures ok { OnOk result (text.new ≡ text.old ++ ipv6_ends_text name.now key.now) }
    ensures err { OnErr result (GrowsByFront text.old text.new (ipv6_ends_text name.now key.now)) }
{
    text.push_all(&[
        Piece::Bytes(name),
        Piece::Bytes(b"["),
        Piece::Bytes(source),
        Piece::Bytes(b"]:"),
        Piece::Number(u64::from(key.source_port)),
        Piece::Bytes(b" > ["),
        Piece::Bytes(destination),
        Piece::Bytes(b"]:"),
        Piece::Number(u64::from(key.destination_port)),
    ])
}

/// Appends a name, and both ends with their ports. After [`NoMemory`] a front of it was appended.
pub fn ipv6_ends_text(name: &[u8], key: &FlowKey, text: &mut Text) -> Result<(), NoMemory>
    ensures ok { OnOk result (text.new ≡ text.old ++ ipv6_ends_text name.now key.now) }
    ensures err { OnErr result (GrowsByFront text.old text.new (ipv6_ends_text name.now key.now)) }
{
    let source = address_text(key.source);
    let destination = address_text(key.destination);
    put_ends(name, &source, &destination, key, text)
}

/// Appends both addresses, and the next header. After [`NoMemory`] a front of it was appended.
pub fn ipv6_addresses_text(key: &FlowKey, text: &mut Text) -> Result<(), NoMemory>
    ensures ok { OnOk result (text.new ≡ text.old ++ ipv6_addresses_text key.now) }
    ensures err { OnErr result (GrowsByFront text.old text.new (ipv6_addresses_text key.now)) }
{
    let source = address_text(key.source);
    let destination = address_text(key.destination);
    text.push_all(&[
        Piece::Bytes(b"ip6 "),
        Piece::Bytes(&source),
        Piece::Bytes(b" > "),
        Piece::Bytes(&destination),
        Piece::Bytes(b" proto "),
        Piece::Number(u64::from(key.protocol)),
    ])
}
