// Captures of the worked rows.
use std::alloc::Global;
use std::test::Fail;

/// The header of a little-endian capture of microseconds, of Ethernet frames.
pub const HEADER: [u8; 24] = [
    0xd4, 0xc3, 0xb2, 0xa1, 2, 0, 4, 0, 0, 0, 0, 0, 0, 0, 0, 0, 0, 0, 4, 0, 1, 0, 0, 0,
];

/// A TCP segment from 66.9.149.187:2794 to 161.142.100.80:1766.
pub const SEGMENT: [u8; 54] = [
    0x02, 0, 0, 0, 0, 1, 0x02, 0, 0, 0, 0, 2, 0x08, 0x00, // Ethernet
    0x45, 0, 0, 0x2e, 0, 1, 0, 0, 0x40, 6, 0, 0, 66, 9, 149, 187, 161, 142, 100, 80, // IPv4
    0x0a, 0xea, 0x06, 0xe6, 0, 0, 0, 0, 0, 0, 0, 0, 0x50, 2, 0xff, 0xff, 0, 0, 0, 0, // TCP
];

/// A TCP segment from 38.27.205.30:48228 to 209.142.163.6:2217, in another of two buckets.
pub const OTHER: [u8; 54] = [
    0x02, 0, 0, 0, 0, 1, 0x02, 0, 0, 0, 0, 2, 0x08, 0x00, // Ethernet
    0x45, 0, 0, 0x2e, 0, 1, 0, 0, 0x40, 6, 0, 0, 38, 27, 205, 30, 209, 142, 163, 6, // IPv4
    0xbc, 0x64, 0x08, 0xa9, 0, 0, 0, 0, 0, 0, 0, 0, 0x50, 2, 0xff, 0xff, 0, 0, 0, 0, // TCP
];

/// An ARP request of 42 bytes, all zero behind its type.
pub const ARP: [u8; 42] = [
    0x02, 0, 0, 0, 0, 1, 0x02, 0, 0, 0, 0, 2, 0x08, 0x06, 0, 0, 0, 0, 0, 0, 0, 0, 0, 0, 0, 0, 0, 0,
    0, 0, 0, 0, 0, 0, 0, 0, 0, 0, 0, 0, 0, 0,
];

/// A frame of a record, and its length on the wire.
pub type Frame<'a> = (&'a [u8], u32);

/// A header of another form, with this link type.
pub fn header_of(magic: [u8; 4], is_big: bool, link: u8) -> [u8; 24] {
    let mut header = [0; 24];
    header[..4].copy_from_slice(&magic);
    let low = if is_big { 1 } else { 0 };
    header[4 + low] = 2;
    header[6 + low] = 4;
    header[20 + 3 * low] = link;
    header
}

/// A little-endian capture of these frames, each captured whole at time 0.
pub fn capture_of(alloc: Global, frames: &[Frame<'_>]) -> Result<Vec<u8>, Fail> {
    let mut bytes = HEADER.to_vec(alloc)?;
    for (frame, original) in frames {
        bytes.extend_from_slice(&[0; 8])?;
        let captured = u32::try_from(frame.len())?;
        bytes.extend_from_slice(&captured.to_le_bytes())?;
        bytes.extend_from_slice(&original.to_le_bytes())?;
        bytes.extend_from_slice(frame)?;
    }
    Ok(bytes)
}
