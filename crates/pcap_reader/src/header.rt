// The header of a capture.
ghost use Rattle.std.specs.Prelude.{◌≡◌, length};
ghost use Rattle.pcap_reader.specs.Capture.{announced, numbers_of, link_of};

use crate::format::{
    CAPTURE_HEADER, LINK_ETHERNET, LINK_RAW, MAGIC_MICROS, MAGIC_MICROS_TURNED, MAGIC_NANOS,
    MAGIC_NANOS_TURNED, MAJOR, MINOR,
};
use crate::numbers::{u16_at, u32_at};
use crate::{Break, Form, Fraction, Order};
use rss_base::Link;

// How numbers are written behind a magic number.
fn numbers_by(magic: u32) -> Option<(Order, Fraction)>
    ensures { result ≡ numbers_of magic }
{
    match magic {
        MAGIC_MICROS => Some((Order::Big, Fraction::Micros)),
        MAGIC_MICROS_TURNED => Some((Order::Little, Fraction::Micros)),
        MAGIC_NANOS => Some((Order::Big, Fraction::Nanos)),
        MAGIC_NANOS_TURNED => Some((Order::Little, Fraction::Nanos)),
        _ => None,
    }
}

// What frames of a link type begin with, where it is one that is read.
fn link_by(value: u32) -> Option<Link>
    ensures { result ≡ link_of value }
{
    match value {
        LINK_ETHERNET => Some(Link::Ethernet),
        LINK_RAW => Some(Link::Raw),
        _ => None,
    }
}

/// The form that a whole header announces, or what is wrong with it first.
#[tactic(auto, unfolding(crate::specs::Capture::announced))]
pub fn announced_by(header: &[u8]) -> Result<Form, Break>
    requires { length header.now ≡ CAPTURE_HEADER }
    ensures { result ≡ announced header.now }
{
    let magic = u32_at(Order::Big, header, 0);
    let (order, fraction) = match numbers_by(magic) {
        Some(numbers) => numbers,
        None => return Err(Break::BadMagic { value: magic }),
    };
    let major = u16_at(order, header, 4);
    let minor = u16_at(order, header, 6);
    if major != MAJOR || minor != MINOR {
        return Err(Break::BadVersion { major, minor });
    }
    let value = u32_at(order, header, 20);
    match link_by(value) {
        Some(link) => Ok(Form {
            order,
            fraction,
            link,
        }),
        None => Err(Break::BadLink { value }),
    }
}
