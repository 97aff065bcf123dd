// The first break at the front of a block.
ghost use Rattle.std.specs.Prelude.{◌≡◌, ◌≤◌, ◌<◌, ◌+◌, length, true, None, slice_get};
ghost use Rattle.pcapng_reader.specs.Front.{is_section, kind_of, order_in, total_length, looked_at, is_record, interface_named};
ghost use Rattle.pcapng_reader.specs.Breaks as rule;

use crate::format::{
    FRONT, LAST_BLOCK, LINK_ETHERNET, LINK_RAW, LONGEST, MAJOR, MOST_INTERFACES, TRAILER,
};
use crate::front::{
    begins_section, captured_at, holds_packet, interface_at, kind_at, least_total_of, looked_at_of,
    order_at, payload_at, told_order, total_at,
};
use crate::numbers::{u16_at, u32_at};
use crate::options::with_padding;
use crate::scope::Scope;
use crate::{BlockKind, ByteOrder, Interface, NgBreak, NgKind};

// What is wrong with a block's number, its first bytes, its byte order or its total length.
fn frame_break(order: ByteOrder, block: u32, front: &[u8]) -> Option<NgBreak>
    requires { length front.now ≤ FRONT }
    ensures value { result ≡ rule.first_row block (rule.frame_rows order block front.now) }
    ensures long { result ≡ None → 8 ≤ length front.now }
    ensures section { result ≡ None → is_section front.now ≡ true → 12 ≤ length front.now }
    ensures looked { result ≡ None → looked_at (kind_of order front.now) ≤ length front.now }
{
    let broken = |kind, value| Some(NgBreak { block, kind, value });
    let have = front.len() as u32;
    if block == LAST_BLOCK {
        return broken(NgKind::Blocks, 0);
    }
    if have < 8 || (begins_section(front) && have < 12) {
        return broken(NgKind::Short, have);
    }
    if begins_section(front) && told_order(front).is_none() {
        return broken(NgKind::Order, u32_at(ByteOrder::Big, front, 8));
    }
    let kind = kind_at(order, front);
    let total = total_at(order, front);
    if total % 4 != 0 || total < least_total_of(kind) {
        return broken(NgKind::Length, total);
    }
    if (have as usize) < looked_at_of(kind) {
        return broken(NgKind::Short, have);
    }
    None
}

// What is wrong with a section header, or with an interface behind so many others.
fn section_break(order: ByteOrder, others: usize, block: u32, front: &[u8]) -> Option<NgBreak>
    requires section { is_section front.now ≡ true → 12 ≤ length front.now }
    requires looked { looked_at (kind_of order front.now) ≤ length front.now }
    requires long { 8 ≤ length front.now }
    ensures { result ≡ rule.first_row block (rule.section_rows order others front.now) }
{
    let kind = kind_at(order, front);
    if kind == BlockKind::Section {
        let major = u16_at(order_at(order, front), front, 12);
        if major != MAJOR {
            return Some(NgBreak {
                block,
                kind: NgKind::Version,
                value: u32::from(major),
            });
        }
    }
    if kind == BlockKind::Description && others >= MOST_INTERFACES {
        return Some(NgBreak {
            block,
            kind: NgKind::Interfaces,
            value: MOST_INTERFACES as u32,
        });
    }
    None
}

// Whether no record may have this link, by that of the first record.
fn bad_link(first: Option<u16>, link: u16) -> bool
    ensures { result ≡ rule.is_bad_link first link }
{
    let unknown = link != LINK_ETHERNET && link != LINK_RAW;
    match first {
        Some(first) => unknown || link != first,
        None => unknown,
    }
}

// What is wrong with a record of an interface.
fn record_break(
    first: Option<u16>,
    block: u32,
    kind: BlockKind,
    order: ByteOrder,
    interface: Interface,
    front: &[u8],
) -> Option<NgBreak>
    requires looked { looked_at kind ≤ length front.now }
    requires record { is_record kind ≡ true }
    ensures { result ≡ rule.first_row block (rule.record_rows first kind order interface front.now) }
{
    let broken = |kind, value| Some(NgBreak { block, kind, value });
    if bad_link(first, interface.link) {
        return broken(NgKind::Link, u32::from(interface.link));
    }
    let captured = captured_at(kind, order, interface, front);
    if captured > LONGEST {
        return broken(NgKind::Long, captured);
    }
    let total = u32_at(order, front, 4);
    if u64::from(total) < payload_at(kind) as u64 + with_padding(captured) + u64::from(TRAILER) {
        return broken(NgKind::Length, total);
    }
    None
}

/// What is wrong at the front of a block.
pub fn front_break_at(scope: &Scope, block: u32, front: &[u8]) -> Option<NgBreak>
    requires { length front.now ≤ FRONT }
    ensures value { result ≡ rule.front_break scope.now block front.now }
    ensures long { result ≡ None → 8 ≤ length front.now }
    ensures section { result ≡ None → is_section front.now ≡ true → 12 ≤ length front.now }
    ensures looked { result ≡ None → looked_at (kind_of scope.now.order front.now) ≤ length front.now }
{
    let order = scope.order();
    if let Some(broken) = frame_break(order, block, front) {
        return Some(broken);
    }
    if let Some(broken) = section_break(order, scope.interfaces(), block, front) {
        return Some(broken);
    }
    let kind = kind_at(order, front);
    if !holds_packet(kind) {
        return None;
    }
    let number = interface_at(kind, order, front);
    match scope.interface(number) {
        Some(interface) => record_break(scope.link(), block, kind, order, interface, front),
        None => Some(NgBreak {
            block,
            kind: NgKind::Interface,
            value: number,
        }),
    }
}
