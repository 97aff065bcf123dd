// What is made ready of a block.
ghost use Rattle.std.specs.Prelude.{◌≡◌, ◌≤◌, ◌++◌, [], length};
ghost use Rattle.pcapng_reader.specs.Progress.{scope_by, link_told, AddsFit};
ghost use Rattle.pcapng_reader.specs.Looks.{IsSettled};
ghost use Rattle.pcapng_reader.specs.Steps.{last_header, heading, packet_heading};

use crate::classic::{capture_header, packet_header};
use crate::format::LINK_ETHERNET;
use crate::ready::Ready;
use crate::scope::Scope;
use crate::stage::{Adds, Block};

/// Makes the header of a capture of no record ready, where none was given before.
pub fn put_last_header(ready: &mut Ready, first: Option<u16>)
    requires { length ready.old ≤ 1 }
    ensures { ready.new ≡ ready.old ++ last_header first }
{
    if first.is_none() {
        ready.put(&capture_header(LINK_ETHERNET));
    }
}

// Makes the header of a packet ready, behind that of the capture where it is the first.
fn put_packet(ready: &mut Ready, first: Option<u16>, link: u16, header: &[u8])
    requires few { length ready.old ≤ 1 }
    requires header { length header.now ≤ 16 }
    ensures { ready.new ≡ ready.old ++ packet_heading first link header.now }
{
    match first {
        Some(_) => ready.put(header),
        None => {
            ready.put(&capture_header(link));
            ready.put(header);
        }
    }
}

// The link of a packet is told, where it is the first.
fn tell_link(scope: &mut Scope, link: u16)
    ensures { scope.new ≡ record { order = scope.old.order; interfaces = scope.old.interfaces; link = link_told scope.old.link link } }
{
    if scope.link().is_none() {
        scope.tell_link(link);
    }
}

/// Adds what a block adds, which holds a packet of so many bytes or none.
pub fn add(ready: &mut Ready, scope: &mut Scope, block: Block, held: u32)
    requires few { length ready.old ≤ 1 }
    requires settled { IsSettled block.adds }
    requires fits { AddsFit block.adds (length scope.old.interfaces) held }
    ensures scope { scope.new ≡ scope_by block.adds block scope.old [] }
    ensures ready { ready.new ≡ ready.old ++ heading block.adds scope.old.link held }
{
    match block.adds {
        Adds::Nothing | Adds::Options { .. } => {}
        Adds::Section => scope.begin(block.order),
        Adds::Described(interface) => scope.add(interface),
        Adds::Packet {
            link,
            nanos,
            original,
        } => {
            put_packet(
                ready,
                scope.link(),
                link,
                &packet_header(nanos, held, original),
            );
            tell_link(scope, link);
        }
    }
}
