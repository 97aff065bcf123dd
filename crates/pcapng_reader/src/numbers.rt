// Numbers in the byte order of a section.
ghost use Rattle.std.specs.Prelude.{◌≡◌, ◌≤◌, ◌+◌, length};
ghost use Rattle.pcapng_reader.specs.Numbers.{number_at};

use crate::ByteOrder;
use byteorder::{BigEndian, ByteOrder as _, LittleEndian};

/// The number in the two bytes from a place on.
#[tactic(auto, unfolding(crate::specs::Numbers::number_at))]
pub fn u16_at(order: ByteOrder, bytes: &[u8], at: usize) -> u16
    requires { at + 2 ≤ length bytes.now }
    ensures { result ≡ number_at order 2 at bytes.now }
{
    match order {
        ByteOrder::Little => LittleEndian::read_u16(&bytes[at..]),
        ByteOrder::Big => BigEndian::read_u16(&bytes[at..]),
    }
}

/// The number in the four bytes from a place on.
#[tactic(auto, unfolding(crate::specs::Numbers::number_at))]
pub fn u32_at(order: ByteOrder, bytes: &[u8], at: usize) -> u32
    requires { at + 4 ≤ length bytes.now }
    ensures { result ≡ number_at order 4 at bytes.now }
{
    match order {
        ByteOrder::Little => LittleEndian::read_u32(&bytes[at..]),
        ByteOrder::Big => BigEndian::read_u32(&bytes[at..]),
    }
}
