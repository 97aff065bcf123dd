// The headers of a classic capture.
ghost use Rattle.std.specs.Prelude.{◌≡◌, ◌≤◌};
ghost use Rattle.pcapng_reader.specs.Classic as text;

use crate::format::{LATEST, LONGEST, MAGIC_NANOS, NANOS_PER_SECOND};
use byteorder::{ByteOrder, LittleEndian};

/// The header of a capture of nanoseconds.
pub fn capture_header(link: u16) -> [u8; 24]
    ensures { result ≡ text.classic_header link }
{
    let mut header = [0; 24];
    LittleEndian::write_u32(&mut header, MAGIC_NANOS);
    LittleEndian::write_u16(&mut header[4..], 2);
    LittleEndian::write_u16(&mut header[6..], 4);
    LittleEndian::write_u32(&mut header[16..], LONGEST);
    LittleEndian::write_u32(&mut header[20..], u32::from(link));
    header
}

/// The header of a record.
pub fn packet_header(nanos: u64, captured: u32, original: u32) -> [u8; 16]
    requires { nanos ≤ LATEST }
    ensures { result ≡ text.record_header nanos captured original }
{
    let mut header = [0; 16];
    LittleEndian::write_u32(&mut header, (nanos / NANOS_PER_SECOND) as u32);
    LittleEndian::write_u32(&mut header[4..], (nanos % NANOS_PER_SECOND) as u32);
    LittleEndian::write_u32(&mut header[8..], captured);
    LittleEndian::write_u32(&mut header[12..], original);
    header
}
