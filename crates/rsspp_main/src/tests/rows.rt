use crate::tests::captures::{ARP, HEADER, SEGMENT, capture_of};
use crate::tests::reports;
use std::test::Fail;

#[test]
fn an_empty_capture_reports_nothing(rt: HostRuntime) -> Result<(), Fail> {
    assert!(rt;
        reports(
            &rt,
            rt.alloc(),
            &HEADER,
            0,
            "total flows 0 packets 0 bytes 0\n",
            ""
        )?
    );
    Ok(())
}

#[test]
fn a_cut_header_is_refused(rt: HostRuntime) -> Result<(), Fail> {
    for (have, line) in [
        (0, "rsspp: capture refused: header ends after 0 bytes\n"),
        (3, "rsspp: capture refused: header ends after 3 bytes\n"),
        (23, "rsspp: capture refused: header ends after 23 bytes\n"),
    ] {
        assert!(rt; reports(&rt, rt.alloc(), &HEADER[..have], 3, "", line)?);
        assert!(rt; reports(&rt, rt.alloc(), &[0x0a; 23][..have], 3, "", line)?);
    }
    Ok(())
}

#[test]
fn a_segment_is_a_flow(rt: HostRuntime) -> Result<(), Fail> {
    let capture = capture_of(rt.alloc(), &[(&SEGMENT, 60)])?;
    let text = "tcp 66.9.149.187:2794 > 161.142.100.80:1766 packets 1 bytes 60\n\
        total flows 1 packets 1 bytes 60\n";
    assert!(rt; reports(&rt, rt.alloc(), &capture, 0, text, "")?);
    Ok(())
}

#[test]
fn frames_without_ip_are_one_flow(rt: HostRuntime) -> Result<(), Fail> {
    let capture = capture_of(rt.alloc(), &[(&[], 42), (&ARP, 42)])?;
    let text = "other packets 2 bytes 84\ntotal flows 1 packets 2 bytes 84\n";
    assert!(rt; reports(&rt, rt.alloc(), &capture, 0, text, "")?);
    Ok(())
}

#[test]
fn a_segment_needs_its_whole_header(rt: HostRuntime) -> Result<(), Fail> {
    let mut fragment = SEGMENT;
    fragment[20] = 0x20;
    let mut short = SEGMENT;
    short[17] = 39;
    let mut unbelieved = SEGMENT;
    unbelieved[17] = 0;
    let frames = [
        (&SEGMENT[..53], 60),
        (fragment.as_slice(), 60),
        (short.as_slice(), 60),
        (unbelieved.as_slice(), 60),
    ];
    let text = "tcp 66.9.149.187:2794 > 161.142.100.80:1766 packets 1 bytes 60\n\
        ip 66.9.149.187 > 161.142.100.80 proto 6 packets 3 bytes 180\n\
        total flows 2 packets 4 bytes 240\n";
    let capture = capture_of(rt.alloc(), &frames)?;
    assert!(rt; reports(&rt, rt.alloc(), &capture, 0, text, "")?);
    Ok(())
}

#[test]
fn a_cut_record_is_refused(rt: HostRuntime) -> Result<(), Fail> {
    let mut capture = capture_of(rt.alloc(), &[(&SEGMENT, 60)])?;
    capture.truncate(93);
    let line = "rsspp: capture refused: record 0 ends after 69 bytes\n";
    assert!(rt; reports(&rt, rt.alloc(), &capture, 3, "", line)?);
    Ok(())
}
