// Captures in memory.
use packet_fields::{Class, FlowKey, PacketInfo};
use std::alloc::Global;
use std::test::Fail;

// Little-endian, with times in microseconds, of Ethernet frames.
const HEADER: [u8; 24] = [
    0xd4, 0xc3, 0xb2, 0xa1, 2, 0, 4, 0, 0, 0, 0, 0, 0, 0, 0, 0, 0, 0, 4, 0, 1, 0, 0, 0,
];

/// A TCP segment from 66.9.149.187:2794 to 161.142.100.80:1766, whose hash is even.
pub(crate) const EVEN: [u8; 54] = [
    0x02, 0, 0, 0, 0, 1, 0x02, 0, 0, 0, 0, 2, 0x08, 0x00, // Ethernet
    0x45, 0, 0, 0x2e, 0, 1, 0, 0, 0x40, 6, 0, 0, 66, 9, 149, 187, 161, 142, 100, 80, // IPv4
    0x0a, 0xea, 0x06, 0xe6, 0, 0, 0, 0, 0, 0, 0, 0, 0x50, 2, 0xff, 0xff, 0, 0, 0, 0, // TCP
];

/// A TCP segment from 38.27.205.30:48228 to 209.142.163.6:2217, whose hash is odd.
pub(crate) const ODD: [u8; 54] = [
    0x02, 0, 0, 0, 0, 1, 0x02, 0, 0, 0, 0, 2, 0x08, 0x00, // Ethernet
    0x45, 0, 0, 0x2e, 0, 1, 0, 0, 0x40, 6, 0, 0, 38, 27, 205, 30, 209, 142, 163, 6, // IPv4
    0xbc, 0x64, 0x08, 0xa9, 0, 0, 0, 0, 0, 0, 0, 0, 0x50, 2, 0xff, 0xff, 0, 0, 0, 0, // TCP
];

/// A capture of these frames, each with an original length of 60 bytes.
pub(crate) fn capture(alloc: Global, frames: &[&[u8; 54]]) -> Result<Vec<u8>, Fail> {
    let mut bytes = HEADER.to_vec(alloc)?;
    for frame in frames {
        bytes.extend_from_slice(&[0, 0, 0, 0, 0, 0, 0, 0, 54, 0, 0, 0, 60, 0, 0, 0])?;
        bytes.extend_from_slice(*frame)?;
    }
    Ok(bytes)
}
