// Captures that are read to their end. The expected texts and breaks were computed by another program,
// written from the format's definition alone.
use crate::{NgBreak, NgError, NgKind, NgSource};
use rss_base::{MemorySource, Source};
use std::alloc::Global;
use std::test::Fail;

mod breaks;
mod captures;

/// The header of a classic capture of Ethernet frames in nanoseconds.
pub const NONE: &str = "4d3cb2a10200040000000000000000000000040001000000";

/// That header, and a record of five bytes after 5,000 nanoseconds.
pub const ONE: &str =
    "4d3cb2a10200040000000000000000000000040001000000000000008813000005000000050000000102030405";

// The value of a hexadecimal digit.
fn digit(code: u8) -> u8 {
    match code {
        b'0'..=b'9' => code - b'0',
        b'a'..=b'f' => code - b'a' + 10,
        _ => 0,
    }
}

// The bytes of hexadecimal digits. Spaces between them are skipped.
fn bytes_of(alloc: Global, text: &str) -> Result<Vec<u8>, Fail> {
    let mut bytes = Vec::new(alloc);
    let mut high = None;
    for code in text.as_bytes() {
        if *code == b' ' {
            continue;
        }
        match high {
            None => high = Some(digit(*code)),
            Some(first) => {
                bytes.push((u32::from(first) % 16 * 16 + u32::from(digit(*code)) % 16) as u8)?;
                high = None;
            }
        }
    }
    Ok(bytes)
}

/// A break of a block.
pub fn broken(block: u32, kind: NgKind, value: u32) -> Option<NgBreak> {
    Some(NgBreak { block, kind, value })
}

// What a source of these bytes gives, read on behind each failed read, and the break that was found.
fn read_all(
    alloc: Global,
    bytes: Vec<u8>,
    cuts: Vec<u32>,
    fail_at: Vec<u64>,
) -> Result<(Vec<u8>, Option<NgBreak>), Fail> {
    let mut source = MemorySource::new(bytes, cuts, fail_at);
    let mut text = Vec::new(alloc);
    match NgSource::start(alloc, &mut source) {
        Ok(mut classic) => {
            let mut buffer = [0; 32];
            for _ in 0..20_000 {
                match classic.read(&mut buffer) {
                    Ok(0) => break,
                    Ok(count) => text.extend_from_slice(&buffer[..count])?,
                    Err(_) => {}
                }
            }
            Ok((text, classic.broken()))
        }
        Err(_) => Ok((text, None)),
    }
}

// Whether these bytes give this text and this break, however they are cut.
fn gives(alloc: Global, input: &str, text: &str, wanted: Option<NgBreak>) -> Result<bool, Fail> {
    let text = bytes_of(alloc, text)?;
    for cut in [1000, 1, 7] {
        let bytes = bytes_of(alloc, input)?;
        let (given, found) = read_all(alloc, bytes, vec![in alloc; cut]?, Vec::new(alloc))?;
        if given != text || found != wanted {
            return Ok(false);
        }
    }
    Ok(true)
}

/// The first row whose bytes don't give its text and its break.
pub fn first_odd(
    alloc: Global,
    rows: &[(&str, &str, Option<NgBreak>)],
) -> Result<Option<usize>, Fail> {
    for (number, (input, text, wanted)) in rows.iter().enumerate() {
        if !gives(alloc, input, text, *wanted)? {
            return Ok(Some(number));
        }
    }
    Ok(None)
}

#[test]
fn another_input_is_handed_on(rt: HostRuntime) -> Result<(), Fail> {
    let odd = first_odd(
        rt.alloc(),
        &[
            ("", "", None),
            ("0a0d0d", "0a0d0d", None),
            (
                "0a0d0d0b 00112233445566778899",
                "0a0d0d0b 00112233445566778899",
                None,
            ),
        ],
    )?;
    assert!(rt; odd == None);
    Ok(())
}

#[test]
fn a_reading_goes_on_behind_each_failed_read(rt: HostRuntime) -> Result<(), Fail> {
    let alloc = rt.alloc();
    let input =
        "0a0d0d0a1c0000004d3c2b1a01000000ffffffffffffffff1c000000 0100000014000000010000000000040014000000 06000000280000000000000000000000050000000500000005000000010203040500000028000000 060000";
    let text = bytes_of(alloc, ONE)?;
    for call in 2..24 {
        let bytes = bytes_of(alloc, input)?;
        let fails = vec![in alloc; call, call + 1]?;
        let (given, found) = read_all(alloc, bytes, vec![in alloc; 7]?, fails)?;
        assert!(rt; given == text);
        assert!(rt; found == broken(3, NgKind::Short, 3));
    }
    Ok(())
}

#[test]
fn a_failed_first_read_is_answered(rt: HostRuntime) -> Result<(), Fail> {
    let alloc = rt.alloc();
    for call in 1..5 {
        let bytes = bytes_of(alloc, "0a0d0d0a")?;
        let mut source = MemorySource::new(bytes, vec![in alloc; 1]?, vec![in alloc; call]?);
        assert!(rt; matches!(NgSource::start(alloc, &mut source), Err(NgError::ReadFault)));
    }
    Ok(())
}

// A section header, and 257 times the same interface.
fn many_interfaces(alloc: Global, section: &str, interface: &str) -> Result<Vec<u8>, Fail> {
    let mut bytes = bytes_of(alloc, section)?;
    let interface = bytes_of(alloc, interface)?;
    for _ in 0..257 {
        bytes.extend_from_slice(&interface)?;
    }
    Ok(bytes)
}

#[test]
fn interface_256_breaks_a_section(rt: HostRuntime) -> Result<(), Fail> {
    let alloc = rt.alloc();
    let orders = [
        (
            "0a0d0d0a1c0000004d3c2b1a01000000ffffffffffffffff1c000000",
            "0100000014000000010000000000040014000000",
        ),
        (
            "0a0d0d0a0000001c1a2b3c4d00010000ffffffffffffffff0000001c",
            "0000000100000014000100000004000000000014",
        ),
    ];
    for (section, interface) in orders {
        for cut in [1000, 1, 7] {
            let bytes = many_interfaces(alloc, section, interface)?;
            let (given, found) = read_all(alloc, bytes, vec![in alloc; cut]?, Vec::new(alloc))?;
            assert!(rt; given == bytes_of(alloc, NONE)?);
            assert!(rt; found == broken(257, NgKind::Interfaces, 256));
        }
    }
    Ok(())
}
