// Whole runs over IPv6 packets, and over captures of raw IP.
use crate::tests::captures::{HEADER, SEGMENT, capture_of, header_of};
use crate::tests::{WHOLE, answers, reports, run};
use std::alloc::Global;
use std::test::Fail;

// A TCP segment from 3ffe:2501:200:1fff::7 port 2794 to 3ffe:2501:200:3::1 port 1766.
const SEGMENT6: [u8; 74] = [
    0x02, 0, 0, 0, 0, 1, 0x02, 0, 0, 0, 0, 2, 0x86, 0xdd, // Ethernet
    0x60, 0, 0, 0, 0, 20, 6, 64, // version, payload length, next header, hop limit
    0x3f, 0xfe, 0x25, 0x01, 0x02, 0x00, 0x1f, 0xff, 0, 0, 0, 0, 0, 0, 0, 7, // source
    0x3f, 0xfe, 0x25, 0x01, 0x02, 0x00, 0x00, 0x03, 0, 0, 0, 0, 0, 0, 0, 1, // destination
    0x0a, 0xea, 0x06, 0xe6, 0, 0, 0, 0, 0, 0, 0, 0, 0x50, 2, 0xff, 0xff, 0, 0, 0, 0, // TCP
];

// A capture of raw IP with these frames, each captured whole.
fn raw_capture(alloc: Global, frames: &[(&[u8], u32)]) -> Result<Vec<u8>, Fail> {
    let mut capture = capture_of(alloc, frames)?;
    if let Some(link) = capture.get_mut(20) {
        *link = 101;
    }
    Ok(capture)
}

#[test]
fn published_ipv6_vectors_are_listed(rt: HostRuntime) -> Result<(), Fail> {
    let capture = capture_of(rt.alloc(), &[(&SEGMENT6, 74)])?;
    let text = "0 40207d3d 61 1 tcp6 [3ffe:2501:0200:1fff:0000:0000:0000:0007]:2794 > \
        [3ffe:2501:0200:0003:0000:0000:0000:0001]:1766\n";
    assert!(rt; answers(&rt, rt.alloc(), &["hash"], &capture, 0, text, "")?);
    let mut neighbour = SEGMENT6;
    neighbour[20] = 58;
    let capture = capture_of(rt.alloc(), &[(&neighbour, 74)])?;
    let text = "0 2cc18cd5 85 1 ip6 3ffe:2501:0200:1fff:0000:0000:0000:0007 > \
        3ffe:2501:0200:0003:0000:0000:0000:0001 proto 58\n";
    assert!(rt; answers(&rt, rt.alloc(), &["hash"], &capture, 0, text, "")?);
    Ok(())
}

#[test]
fn a_cut_ipv6_segment_has_no_ports(rt: HostRuntime) -> Result<(), Fail> {
    let capture = capture_of(rt.alloc(), &[(&SEGMENT6[..73], 74)])?;
    let text = "ip6 3ffe:2501:0200:1fff:0000:0000:0000:0007 > \
        3ffe:2501:0200:0003:0000:0000:0000:0001 proto 6 packets 1 bytes 74\n\
        total flows 1 packets 1 bytes 74\n";
    assert!(rt; reports(&rt, rt.alloc(), &capture, 0, text, "")?);
    Ok(())
}

#[test]
fn a_raw_segment_is_a_flow(rt: HostRuntime) -> Result<(), Fail> {
    let capture = raw_capture(rt.alloc(), &[(&SEGMENT[14..], 60)])?;
    let text = "tcp 66.9.149.187:2794 > 161.142.100.80:1766 packets 1 bytes 60\n\
        total flows 1 packets 1 bytes 60\n";
    assert!(rt; reports(&rt, rt.alloc(), &capture, 0, text, "")?);
    Ok(())
}

// Both versions, the frames of Ethernet, which is none of them here, and an empty frame.
#[test]
fn raw_packets_are_told_apart_by_their_version(rt: HostRuntime) -> Result<(), Fail> {
    let frames = [
        (&SEGMENT6[14..], 74),
        (&SEGMENT6[..], 88),
        (&[] as &[u8], 60),
        (&SEGMENT[14..], 60),
    ];
    let capture = raw_capture(rt.alloc(), &frames)?;
    let text = "tcp 66.9.149.187:2794 > 161.142.100.80:1766 flags 02 syn 1 fin 0 rst 0\n\
        tcp6 [3ffe:2501:0200:1fff:0000:0000:0000:0007]:2794 > \
        [3ffe:2501:0200:0003:0000:0000:0000:0001]:1766 flags 02 syn 1 fin 0 rst 0\n\
        other flags 00 syn 0 fin 0 rst 0\n\
        total flows 3 packets 4 bytes 282\n";
    let words = ["report", "--work", "flags"];
    assert!(rt; answers(&rt, rt.alloc(), &words, &capture, 0, text, "")?);
    Ok(())
}

// The neighbours of both link types, and raw IP with a further bit.
#[test]
fn other_links_are_refused(rt: HostRuntime) -> Result<(), Fail> {
    for (link, line) in [
        (0, "rsspp: capture refused: link 0\n"),
        (2, "rsspp: capture refused: link 2\n"),
        (100, "rsspp: capture refused: link 100\n"),
        (102, "rsspp: capture refused: link 102\n"),
        (113, "rsspp: capture refused: link 113\n"),
    ] {
        let header = header_of([0xa1, 0xb2, 0xc3, 0xd4], true, link);
        assert!(rt; reports(&rt, rt.alloc(), &header, 3, "", line)?);
    }
    let mut header = HEADER;
    header[20] = 101;
    assert_eq!(rt;
        run(&rt, rt.alloc(), &["report"], &header, WHOLE)?.status,
        0
    );
    header[23] = 0x10;
    let line = "rsspp: capture refused: link 268435557\n";
    assert!(rt; reports(&rt, rt.alloc(), &header, 3, "", line)?);
    Ok(())
}
