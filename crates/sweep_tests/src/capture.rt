// Captures in memory.
use std::alloc::Global;
use std::test::Fail;

// Little-endian, with times in microseconds, of Ethernet frames.
const HEADER: [u8; 24] = [
    0xd4, 0xc3, 0xb2, 0xa1, 2, 0, 4, 0, 0, 0, 0, 0, 0, 0, 0, 0, 0, 0, 4, 0, 1, 0, 0, 0,
];

// A TCP segment from 66.9.149.187:2794 to 161.142.100.80:1766.
const SEGMENT: [u8; 54] = [
    0x02, 0, 0, 0, 0, 1, 0x02, 0, 0, 0, 0, 2, 0x08, 0x00, // Ethernet
    0x45, 0, 0, 0x2e, 0, 1, 0, 0, 0x40, 6, 0, 0, 66, 9, 149, 187, 161, 142, 100, 80, // IPv4
    0x0a, 0xea, 0x06, 0xe6, 0, 0, 0, 0, 0, 0, 0, 0, 0x50, 2, 0xff, 0xff, 0, 0, 0, 0, // TCP
];

/// A capture of one flow, with a segment of each of these lengths on the wire.
pub(crate) fn capture(alloc: Global, lengths: &[u8]) -> Result<Vec<u8>, Fail> {
    let mut bytes = HEADER.to_vec(alloc)?;
    for length in lengths {
        bytes.extend_from_slice(&[0, 0, 0, 0, 0, 0, 0, 0, 54, 0, 0, 0, *length, 0, 0, 0])?;
        bytes.extend_from_slice(&SEGMENT)?;
    }
    Ok(bytes)
}
