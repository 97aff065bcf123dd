// Captures of the pcapng format, whole and broken.
use crate::tests::captures::SEGMENT;
use crate::tests::{Ends, WHOLE, reports, run, run_under};
use std::alloc::Global;
use std::test::Fail;

/// A little-endian section header of version 1.0, which doesn't tell how long its section is.
const SECTION: [u8; 28] = [
    0x0a, 0x0d, 0x0d, 0x0a, 28, 0, 0, 0, 0x4d, 0x3c, 0x2b, 0x1a, 1, 0, 0, 0, 0xff, 0xff, 0xff,
    0xff, 0xff, 0xff, 0xff, 0xff, 28, 0, 0, 0,
];

/// An interface of Ethernet frames with a snap length of 262,144.
const INTERFACE: [u8; 20] = [1, 0, 0, 0, 20, 0, 0, 0, 1, 0, 0, 0, 0, 0, 4, 0, 20, 0, 0, 0];

/// What stands in a block before the 54 bytes of a segment that was 60 bytes long.
const RECORD: [u8; 28] = [
    6, 0, 0, 0, 88, 0, 0, 0, 0, 0, 0, 0, 0, 0, 0, 0, 0, 0, 0, 0, 54, 0, 0, 0, 60, 0, 0, 0,
];

const ONE_FLOW: &str = "tcp 66.9.149.187:2794 > 161.142.100.80:1766 packets 1 bytes 60
total flows 1 packets 1 bytes 60
";

const NO_FLOWS: &str = "total flows 0 packets 0 bytes 0\n";

// Puts a record of the segment behind the other blocks.
fn put_record(capture: &mut Vec<u8>) -> Result<(), Fail> {
    for part in [RECORD.as_slice(), SEGMENT.as_slice(), &[0, 0, 88, 0, 0, 0]] {
        capture.extend_from_slice(part)?;
    }
    Ok(())
}

// A section with an interface of this link type and so many records of the segment.
fn capture_of(alloc: Global, link: u8, records: usize) -> Result<Vec<u8>, Fail> {
    let mut capture = SECTION.to_vec(alloc)?;
    let mut interface = INTERFACE;
    interface[8] = link;
    capture.extend_from_slice(&interface)?;
    for _ in 0..records {
        put_record(&mut capture)?;
    }
    Ok(capture)
}

#[test]
fn a_pcapng_capture_is_reported(rt: HostRuntime) -> Result<(), Fail> {
    let capture = capture_of(rt.alloc(), 1, 1)?;
    assert!(rt; reports(&rt, rt.alloc(), &capture, 0, ONE_FLOW, "")?);
    let serial = run_under(&rt, rt.alloc(), 1, &["report"], &capture)?;
    assert_eq!(rt; serial.status, 0);
    assert!(rt; serial.out.as_slice() == ONE_FLOW.as_bytes());
    Ok(())
}

// A capture without records names no link, so its interface may have any.
#[test]
fn a_pcapng_capture_may_have_no_records(rt: HostRuntime) -> Result<(), Fail> {
    let capture = capture_of(rt.alloc(), 113, 0)?;
    assert!(rt; reports(&rt, rt.alloc(), &capture, 0, NO_FLOWS, "")?);
    Ok(())
}

#[test]
fn a_block_that_breaks_is_named(rt: HostRuntime) -> Result<(), Fail> {
    let mut cut = capture_of(rt.alloc(), 1, 1)?;
    cut.truncate(135);
    let note = "rsspp: capture refused: block 2 short 87\n";
    assert!(rt; reports(&rt, rt.alloc(), &cut, 3, "", note)?);
    let other = capture_of(rt.alloc(), 113, 1)?;
    let note = "rsspp: capture refused: block 2 link 113\n";
    assert!(rt; reports(&rt, rt.alloc(), &other, 3, "", note)?);
    let mut beginning = [0; 24];
    beginning[..4].copy_from_slice(&SECTION[..4]);
    let note = "rsspp: capture refused: block 0 order 0\n";
    assert!(rt; reports(&rt, rt.alloc(), &beginning, 3, "", note)?);
    Ok(())
}

// The kinds that the rows above leave out.
#[test]
fn each_kind_of_break_has_its_word(rt: HostRuntime) -> Result<(), Fail> {
    let whole = capture_of(rt.alloc(), 1, 1)?;
    for (at, byte, note) in [
        (4, 29, "rsspp: capture refused: block 0 length 29\n"),
        (12, 2, "rsspp: capture refused: block 0 version 2\n"),
        (56, 1, "rsspp: capture refused: block 2 interface 1\n"),
        (70, 5, "rsspp: capture refused: block 2 long 327734\n"),
        (132, 92, "rsspp: capture refused: block 2 tail 92\n"),
    ] {
        let mut capture = whole.to_vec(rt.alloc())?;
        if let Some(place) = capture.get_mut(at) {
            *place = byte;
        }
        assert!(rt; reports(&rt, rt.alloc(), &capture, 3, "", note)?);
    }
    Ok(())
}

#[test]
fn a_section_has_256_interfaces_at_most(rt: HostRuntime) -> Result<(), Fail> {
    let mut capture = SECTION.to_vec(rt.alloc())?;
    for _ in 0..257 {
        capture.extend_from_slice(&INTERFACE)?;
    }
    let ran = run(&rt, rt.alloc(), &["report"], &capture, WHOLE)?;
    let note = b"rsspp: capture refused: block 257 interfaces 256\n";
    assert_eq!(rt; ran.status, 3);
    assert!(rt; ran.notes.as_slice() == note.as_slice());
    Ok(())
}

// A block that breaks leaves the lines of the records before it, and is told before a failed write.
#[test]
fn a_listing_has_the_lines_before_a_block_that_breaks(rt: HostRuntime) -> Result<(), Fail> {
    let mut capture = capture_of(rt.alloc(), 1, 2)?;
    capture.truncate(221);
    let line = b"0 51ccc178 120 0 tcp 66.9.149.187:2794 > 161.142.100.80:1766\n";
    let note = b"rsspp: capture refused: block 3 short 85\n";
    for (failing_write, out) in [(0, line.as_slice()), (1, &[])] {
        let ends = Ends {
            failing_write,
            ..WHOLE
        };
        let ran = run(&rt, rt.alloc(), &["hash"], &capture, ends)?;
        assert_eq!(rt; ran.status, 3);
        assert!(rt; ran.out.as_slice() == out);
        assert!(rt; ran.notes.as_slice() == note.as_slice());
    }
    Ok(())
}

// One record more than the limit is told before a break behind it.
#[test]
fn too_many_packets_are_told_before_a_later_block(rt: HostRuntime) -> Result<(), Fail> {
    let mut capture = capture_of(rt.alloc(), 1, 3)?;
    capture.truncate(311);
    for (limit, status, note) in [
        ("1", 7, "rsspp: more than 1 packets\n"),
        ("2", 3, "rsspp: capture refused: block 4 short 87\n"),
    ] {
        let words = ["report", "--packets", limit];
        let ran = run(&rt, rt.alloc(), &words, &capture, WHOLE)?;
        assert_eq!(rt; ran.status, status);
        assert!(rt; ran.out.is_empty());
        assert!(rt; ran.notes.as_slice() == note.as_bytes());
    }
    Ok(())
}

// Each read gives one byte.
#[test]
fn a_failed_read_of_a_pcapng_capture_is_told(rt: HostRuntime) -> Result<(), Fail> {
    let capture = capture_of(rt.alloc(), 1, 1)?;
    for failing_read in 1..=capture.len() as u64 + 1 {
        let ends = Ends {
            cut: 1,
            failing_read,
            ..WHOLE
        };
        let ran = run(&rt, rt.alloc(), &["report"], &capture, ends)?;
        assert_eq!(rt; ran.status, 4);
        assert!(rt; ran.out.is_empty());
        assert!(rt; ran.notes.as_slice() == b"rsspp: read fault\n".as_slice());
    }
    Ok(())
}
