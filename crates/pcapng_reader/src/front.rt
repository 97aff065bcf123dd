// The numbers at the front of a block.
ghost use Rattle.std.specs.Prelude.{◌≡◌, ◌≤◌, ◌<◌, ◌+◌, length, true};
ghost use Rattle.pcapng_reader.specs.Numbers.{number_at};
ghost use Rattle.pcapng_reader.specs.Front.{is_section, kind_by, kind_of, order_told, order_in, total_length, least_total, looked_at, is_record, interface_named, bytes_at, bounded, captured_of, original_of, ticks_of};

use crate::format::{
    BYTE_ORDER_MAGIC, ENHANCED_PACKET, INTERFACE_DESCRIPTION, SECTION_HEADER, SIMPLE_PACKET,
};
use crate::numbers::u32_at;
use crate::{BlockKind, ByteOrder, Interface};

/// Whether a section header stands at the front.
pub fn begins_section(front: &[u8]) -> bool
    requires { 4 ≤ length front.now }
    ensures { result ≡ is_section front.now }
{
    u32_at(ByteOrder::Big, front, 0) == SECTION_HEADER
}

// The kind of a block type.
fn kind_with(number: u32) -> BlockKind
    ensures { result ≡ kind_by number }
{
    match number {
        INTERFACE_DESCRIPTION => BlockKind::Description,
        SIMPLE_PACKET => BlockKind::Simple,
        ENHANCED_PACKET => BlockKind::Enhanced,
        _ => BlockKind::Other,
    }
}

/// The kind of the block at the front.
#[tactic(auto, unfolding(crate::specs::Front::kind_of))]
pub fn kind_at(order: ByteOrder, front: &[u8]) -> BlockKind
    requires { 4 ≤ length front.now }
    ensures { result ≡ kind_of order front.now }
{
    if begins_section(front) {
        BlockKind::Section
    } else {
        kind_with(u32_at(order, front, 0))
    }
}

/// The byte order that a section header's magic tells.
pub fn told_order(front: &[u8]) -> Option<ByteOrder>
    requires { 12 ≤ length front.now }
    ensures { result ≡ order_told front.now }
{
    if u32_at(ByteOrder::Big, front, 8) == BYTE_ORDER_MAGIC {
        Some(ByteOrder::Big)
    } else if u32_at(ByteOrder::Little, front, 8) == BYTE_ORDER_MAGIC {
        Some(ByteOrder::Little)
    } else {
        None
    }
}

/// The byte order of the block's numbers.
#[tactic(auto, unfolding(crate::specs::Front::order_in))]
pub fn order_at(order: ByteOrder, front: &[u8]) -> ByteOrder
    requires long { 4 ≤ length front.now }
    requires section { is_section front.now ≡ true → 12 ≤ length front.now }
    ensures { result ≡ order_in order front.now }
{
    if !begins_section(front) {
        return order;
    }
    match told_order(front) {
        Some(told) => told,
        None => order,
    }
}

/// The total length that the front tells.
pub fn total_at(order: ByteOrder, front: &[u8]) -> u32
    requires long { 8 ≤ length front.now }
    requires section { is_section front.now ≡ true → 12 ≤ length front.now }
    ensures { result ≡ total_length order front.now }
{
    u32_at(order_at(order, front), front, 4)
}

/// The least total length of a kind of block.
pub fn least_total_of(kind: BlockKind) -> u32
    ensures { result ≡ least_total kind }
{
    match kind {
        BlockKind::Section => 28,
        BlockKind::Description => 20,
        BlockKind::Simple => 16,
        BlockKind::Enhanced => 32,
        BlockKind::Other => 12,
    }
}

/// How many bytes are read before the fields of a kind of block are looked at.
pub fn looked_at_of(kind: BlockKind) -> usize
    ensures { result ≡ looked_at kind }
{
    match kind {
        BlockKind::Section | BlockKind::Description => 16,
        BlockKind::Simple => 12,
        BlockKind::Enhanced => 28,
        BlockKind::Other => 8,
    }
}

/// Whether a kind of block holds a packet.
pub fn holds_packet(kind: BlockKind) -> bool
    ensures { result ≡ is_record kind }
{
    match kind {
        BlockKind::Simple | BlockKind::Enhanced => true,
        BlockKind::Section | BlockKind::Description | BlockKind::Other => false,
    }
}

/// The interface that a record names.
pub fn interface_at(kind: BlockKind, order: ByteOrder, front: &[u8]) -> u32
    requires { looked_at kind ≤ length front.now }
    ensures { result ≡ interface_named kind order front.now }
{
    if kind == BlockKind::Enhanced {
        u32_at(order, front, 8)
    } else {
        0
    }
}

/// Where a record's captured bytes begin.
pub fn payload_at(kind: BlockKind) -> usize
    ensures value { result ≡ bytes_at kind }
    ensures small { result ≤ 28 }
{
    if kind == BlockKind::Enhanced { 28 } else { 12 }
}

/// How many bytes of a record's frame were captured.
pub fn captured_at(kind: BlockKind, order: ByteOrder, interface: Interface, front: &[u8]) -> u32
    requires long { looked_at kind ≤ length front.now }
    requires kind { is_record kind ≡ true }
    ensures { result ≡ captured_of kind order interface front.now }
{
    if kind == BlockKind::Enhanced {
        return u32_at(order, front, 20);
    }
    let original = u32_at(order, front, 8);
    if interface.snap == 0 {
        original
    } else {
        original.min(interface.snap)
    }
}

/// The length of a record's frame on the wire.
pub fn original_at(kind: BlockKind, order: ByteOrder, front: &[u8]) -> u32
    requires long { looked_at kind ≤ length front.now }
    requires kind { is_record kind ≡ true }
    ensures { result ≡ original_of kind order front.now }
{
    if kind == BlockKind::Enhanced {
        u32_at(order, front, 24)
    } else {
        u32_at(order, front, 8)
    }
}

/// The time of a record in units of its interface.
pub fn ticks_at(kind: BlockKind, order: ByteOrder, front: &[u8]) -> u64
    requires { looked_at kind ≤ length front.now }
    ensures { result ≡ ticks_of kind order front.now }
{
    if kind == BlockKind::Enhanced {
        u64::from(u32_at(order, front, 12)) * (1 << 32) + u64::from(u32_at(order, front, 16))
    } else {
        0
    }
}
