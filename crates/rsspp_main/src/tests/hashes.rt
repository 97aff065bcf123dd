use crate::tests::captures::{ARP, Frame, SEGMENT, capture_of};
use crate::tests::{Ends, WHOLE, run};
use std::test::Fail;

// Source, destination, source port and destination port of the published vectors.
const ENDS: [[u8; 12]; 5] = [
    [66, 9, 149, 187, 161, 142, 100, 80, 0x0a, 0xea, 0x06, 0xe6],
    [199, 92, 111, 2, 65, 69, 140, 83, 0x37, 0x96, 0x12, 0x83],
    [24, 19, 198, 95, 12, 22, 207, 184, 0x32, 0x62, 0x94, 0x88],
    [38, 27, 205, 30, 209, 142, 163, 6, 0xbc, 0x64, 0x08, 0xa9],
    [153, 39, 163, 191, 202, 188, 127, 2, 0xac, 0xdb, 0x05, 0x17],
];

const OF_ENDS: &str = "\
0 51ccc178 120 0 tcp 66.9.149.187:2794 > 161.142.100.80:1766
1 c626b0ea 106 2 tcp 199.92.111.2:14230 > 65.69.140.83:4739
2 5c2b394a 74 2 tcp 24.19.198.95:12898 > 12.22.207.184:38024
3 afc7327f 127 3 tcp 38.27.205.30:48228 > 209.142.163.6:2217
4 10e828a2 34 2 tcp 153.39.163.191:44251 > 202.188.127.2:1303
";

const OF_ADDRESSES: &str = "\
0 323e8fc2 66 2 ip 66.9.149.187 > 161.142.100.80 proto 1
1 d718262a 42 2 ip 199.92.111.2 > 65.69.140.83 proto 1
2 d2d0a5de 94 2 ip 24.19.198.95 > 12.22.207.184 proto 1
3 82989176 118 2 ip 38.27.205.30 > 209.142.163.6 proto 1
4 5d1809c5 69 1 ip 153.39.163.191 > 202.188.127.2 proto 1
";

// A segment of each vector, with this protocol number.
fn segments(protocol: u8) -> [[u8; 54]; 5] {
    let mut frames = [SEGMENT; 5];
    for (frame, ends) in frames.iter_mut().zip(ENDS) {
        frame[23] = protocol;
        frame[26..38].copy_from_slice(&ends);
    }
    frames
}

#[test]
fn published_vectors_are_listed(rt: HostRuntime) -> Result<(), Fail> {
    for (protocol, text) in [(6, OF_ENDS), (1, OF_ADDRESSES)] {
        let [a, b, c, d, e] = segments(protocol);
        let frames: [Frame<'_>; 5] = [(&a, 60), (&b, 60), (&c, 60), (&d, 60), (&e, 60)];
        let capture = capture_of(rt.alloc(), &frames)?;
        let ran = run(&rt, rt.alloc(), &["hash"], &capture, WHOLE)?;
        assert_eq!(rt; ran.status, 0);
        assert!(rt; ran.out.as_slice() == text.as_bytes());
    }
    Ok(())
}

#[test]
fn frames_without_ip_have_no_hash(rt: HostRuntime) -> Result<(), Fail> {
    let capture = capture_of(rt.alloc(), &[(&[], 42), (&ARP, 42)])?;
    let ran = run(&rt, rt.alloc(), &["hash"], &capture, WHOLE)?;
    let text = "0 00000000 0 0 other\n1 00000000 0 0 other\n";
    assert!(rt; ran.out.as_slice() == text.as_bytes());
    Ok(())
}

// The third record is cut, and the second write fails: the cut is told, and one line stands.
#[test]
fn a_listing_reads_on_behind_a_failed_write(rt: HostRuntime) -> Result<(), Fail> {
    let mut capture = capture_of(rt.alloc(), &[(&[], 1), (&[], 2), (&ARP, 3)])?;
    let ends = Ends {
        failing_write: 2,
        ..WHOLE
    };
    let whole = run(&rt, rt.alloc(), &["hash"], &capture, ends)?;
    assert_eq!(rt; whole.status, 5);
    capture.truncate(100);
    let cut = run(&rt, rt.alloc(), &["hash"], &capture, ends)?;
    assert_eq!(rt; cut.status, 3);
    assert!(rt; cut.out.as_slice() == b"0 00000000 0 0 other\n".as_slice());
    Ok(())
}

// A refused capture leaves the lines of the records before it.
#[test]
fn a_listing_has_the_lines_before_a_break(rt: HostRuntime) -> Result<(), Fail> {
    let mut capture = capture_of(rt.alloc(), &[(&[], 1), (&SEGMENT, 60)])?;
    capture.truncate(80);
    let ran = run(&rt, rt.alloc(), &["hash"], &capture, WHOLE)?;
    assert_eq!(rt; ran.status, 3);
    assert!(rt; ran.out.as_slice() == b"0 00000000 0 0 other\n".as_slice());
    Ok(())
}

// Whichever read fails, the lines of all whole records before it stand.
#[test]
fn a_listing_has_the_lines_before_a_failed_read(rt: HostRuntime) -> Result<(), Fail> {
    let capture = capture_of(rt.alloc(), &[(&[], 1), (&ARP, 3), (&[], 2)])?;
    let whole = run(&rt, rt.alloc(), &["hash"], &capture, WHOLE)?;
    let reads = capture.len() as u64 + 1;
    // Each read gives one byte: the records end behind 40, 98 and 114 of them.
    for failing_read in 1..=reads {
        let ends = Ends {
            cut: 1,
            failing_read,
            ..WHOLE
        };
        let ran = run(&rt, rt.alloc(), &["hash"], &capture, ends)?;
        assert_eq!(rt; ran.status, 4);
        let records = [40, 98, 114]
            .iter()
            .filter(|end| **end < failing_read)
            .count();
        assert!(rt; whole.out.starts_with(&ran.out));
        assert_eq!(rt;
            ran.out.iter().filter(|byte| **byte == b'\n').count(),
            records
        );
        assert!(rt; ran.out.is_empty() || ran.out.ends_with(b"\n"));
    }
    Ok(())
}
