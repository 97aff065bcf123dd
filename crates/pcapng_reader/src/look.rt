// What stands at the front of a block.
ghost use Rattle.std.specs.Prelude.{◌≡◌, ◌≤◌, ◌<◌, ◌+◌, length, true, false, None};
ghost use Rattle.pcapng_reader.specs.Front.{is_section, kind_of, looked_at, is_record, total_length, bytes_at, captured_of};
ghost use Rattle.pcapng_reader.specs.Breaks.{front_break};
ghost use Rattle.pcapng_reader.specs.Looks.{Looks, opened, opened_record, looked_record, looked_behind};

use crate::breaks::front_break_at;
use crate::format::FRONT;
use crate::front::{
    captured_at, holds_packet, interface_at, kind_at, looked_at_of, order_at, original_at,
    payload_at, ticks_at, total_at,
};
use crate::numbers::{u16_at, u32_at};
use crate::scope::Scope;
use crate::stage::{Adds, Block};
use crate::time::nanos_by;
use crate::{BlockKind, ByteOrder, Interface, NgBreak, NgKind};

/// What a look at the front of a block tells.
#[derive(Clone, Copy)]
pub enum Look {
    /// More bytes are needed.
    More,
    /// The input has no more block.
    End,
    /// The block breaks so.
    Breaks(NgBreak),
    /// Nothing breaks the front, which has so many bytes. So many captured bytes stand behind it.
    Opens {
        front: usize,
        held: u32,
        block: Block,
    },
}

// A block that holds no packet.
fn open_other(order: ByteOrder, kind: BlockKind, front: &[u8]) -> Look
    requires section { is_section front.now ≡ true → 12 ≤ length front.now }
    requires looked { looked_at kind ≤ length front.now }
    requires long { 8 ≤ length front.now }
    requires other { is_record kind ≡ false }
    requires sized { looked_at kind ≤ total_length order front.now }
    ensures { result ≡ opened kind order front.now }
{
    let adds = match kind {
        BlockKind::Section => Adds::Section,
        BlockKind::Description => Adds::Options {
            link: u16_at(order, front, 8),
            snap: u32_at(order, front, 12),
        },
        _ => Adds::Nothing,
    };
    let seen = looked_at_of(kind);
    let total = total_at(order, front);
    Look::Opens {
        front: seen,
        held: 0,
        block: Block {
            order: order_at(order, front),
            total,
            rest: total - seen as u32,
            adds,
        },
    }
}

// A record of an interface.
fn open_record(order: ByteOrder, kind: BlockKind, interface: Interface, front: &[u8]) -> Look
    requires section { is_section front.now ≡ true → 12 ≤ length front.now }
    requires looked { looked_at kind ≤ length front.now }
    requires long { 8 ≤ length front.now }
    requires record { is_record kind ≡ true }
    requires sized { bytes_at kind + captured_of kind order interface front.now ≤ total_length order front.now }
    ensures { result ≡ opened_record kind order interface front.now }
{
    let held = captured_at(kind, order, interface, front);
    let seen = payload_at(kind);
    let total = total_at(order, front);
    Look::Opens {
        front: seen,
        held,
        block: Block {
            order: order_at(order, front),
            total,
            rest: total - (seen as u32 + held),
            adds: Adds::Packet {
                link: interface.link,
                nanos: nanos_by(ticks_at(kind, order, front), interface.resolution),
                original: original_at(kind, order, front),
            },
        },
    }
}

// A record of an interface, of which so many bytes are there.
fn look_at_record(
    order: ByteOrder,
    block: u32,
    kind: BlockKind,
    interface: Interface,
    front: &[u8],
    have: usize,
    ended: bool,
) -> Look
    requires section { is_section front.now ≡ true → 12 ≤ length front.now }
    requires looked { looked_at kind ≤ length front.now }
    requires long { 8 ≤ length front.now }
    requires record { is_record kind ≡ true }
    requires limit { captured_of kind order interface front.now ≤ 262_144 }
    requires sized { bytes_at kind + captured_of kind order interface front.now ≤ total_length order front.now }
    ensures { result ≡ looked_record block kind order interface front.now have ended }
{
    if have >= payload_at(kind) + captured_at(kind, order, interface, front) as usize {
        return open_record(order, kind, interface, front);
    }
    if ended {
        Look::Breaks(NgBreak {
            block,
            kind: NgKind::Short,
            value: have as u32,
        })
    } else {
        Look::More
    }
}

// A block whose front nothing breaks, of which so many bytes are there.
fn look_behind(scope: &Scope, block: u32, front: &[u8], have: usize, ended: bool) -> Look
    requires long { 8 ≤ length front.now }
    requires section { is_section front.now ≡ true → 12 ≤ length front.now }
    requires looked { looked_at (kind_of scope.now.order front.now) ≤ length front.now }
    requires sound { front_break scope.now block front.now ≡ None }
    ensures { result ≡ looked_behind (kind_of scope.now.order front.now) scope.now block front.now have ended }
{
    let order = scope.order();
    let kind = kind_at(order, front);
    if !holds_packet(kind) {
        return open_other(order, kind, front);
    }
    match scope.interface(interface_at(kind, order, front)) {
        Some(interface) => look_at_record(order, block, kind, interface, front, have, ended),
        None => unreachable!(),
    }
}

/// What a look at block number `block` tells, of which these bytes were read ahead. Behind them the
/// input ends, or may go on.
pub fn look_at(scope: &Scope, block: u32, bytes: &[u8], ended: bool) -> Look
    ensures { Looks scope.now block bytes.now ended result }
{
    if bytes.len() < FRONT && !ended {
        return Look::More;
    }
    if bytes.is_empty() {
        return Look::End;
    }
    let front = &bytes[..bytes.len().min(FRONT)];
    match front_break_at(scope, block, front) {
        Some(broken) => Look::Breaks(broken),
        None => look_behind(scope, block, front, bytes.len(), ended),
    }
}
