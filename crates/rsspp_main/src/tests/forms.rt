// The kinds of capture, and what breaks one.
use crate::tests::captures::{HEADER, SEGMENT, capture_of, header_of};
use crate::tests::{WHOLE, reports, run};
use std::test::Fail;

const MICROS: [u8; 4] = [0xa1, 0xb2, 0xc3, 0xd4];

const MICROS_TURNED: [u8; 4] = [0xd4, 0xc3, 0xb2, 0xa1];

const NANOS: [u8; 4] = [0xa1, 0xb2, 0x3c, 0x4d];

const NANOS_TURNED: [u8; 4] = [0x4d, 0x3c, 0xb2, 0xa1];

fn number(value: u32, is_big: bool) -> [u8; 4] {
    if is_big {
        value.to_be_bytes()
    } else {
        value.to_le_bytes()
    }
}

// Two segments 245 units of the fraction apart.
#[test]
fn each_kind_of_capture_tells_its_times(rt: HostRuntime) -> Result<(), Fail> {
    for (magic, is_big, gap) in [
        (MICROS, true, "gap 245000\n"),
        (MICROS_TURNED, false, "gap 245000\n"),
        (NANOS, true, "gap 245\n"),
        (NANOS_TURNED, false, "gap 245\n"),
    ] {
        let mut capture = header_of(magic, is_big, 1).to_vec(rt.alloc())?;
        for fraction in [5, 250] {
            for field in [1, fraction, 54, 60] {
                capture.extend_from_slice(&number(field, is_big))?;
            }
            capture.extend_from_slice(&SEGMENT)?;
        }
        let ran = run(
            &rt,
            rt.alloc(),
            &["report", "--work", "gaps"],
            &capture,
            WHOLE,
        )?;
        let mut text = b"tcp 66.9.149.187:2794 > 161.142.100.80:1766 ".to_vec(rt.alloc())?;
        text.extend_from_slice(gap.as_bytes())?;
        text.extend_from_slice(b"total flows 1 packets 2 bytes 120\n")?;
        assert!(rt; ran.out == text);
    }
    Ok(())
}

#[test]
fn another_format_is_refused(rt: HostRuntime) -> Result<(), Fail> {
    let mut other = HEADER;
    other[..4].copy_from_slice(&[0x0a, 0x0d, 0x0d, 0x0b]);
    assert!(rt;
        reports(
            &rt,
            rt.alloc(),
            &other,
            3,
            "",
            "rsspp: capture refused: magic 0a0d0d0b\n"
        )?
    );
    let mut later = HEADER;
    later[6] = 5;
    assert!(rt;
        reports(
            &rt,
            rt.alloc(),
            &later,
            3,
            "",
            "rsspp: capture refused: version 2.5\n"
        )?
    );
    let any = header_of(MICROS, true, 113);
    assert!(rt;
        reports(
            &rt,
            rt.alloc(),
            &any,
            3,
            "",
            "rsspp: capture refused: link 113\n"
        )?
    );
    Ok(())
}

#[test]
fn a_record_has_a_longest_length(rt: HostRuntime) -> Result<(), Fail> {
    let frame = vec![in rt.alloc(); 0; 262_145]?;
    let longest = capture_of(rt.alloc(), &[(&frame[1..], 262_144)])?;
    let ran = run(&rt, rt.alloc(), &["report"], &longest, WHOLE)?;
    assert_eq!(rt; ran.status, 0);
    let longer = capture_of(rt.alloc(), &[(&frame, 262_145)])?;
    let ran = run(&rt, rt.alloc(), &["report"], &longer, WHOLE)?;
    assert_eq!(rt; ran.status, 3);
    let line = b"rsspp: capture refused: record 0 has length 262145\n";
    assert!(rt; ran.notes.as_slice() == line.as_slice());
    Ok(())
}
