// Tables of many flows.
use crate::tests::captures::{Frame, SEGMENT, capture_of};
use crate::tests::{WHOLE, run};
use std::test::Fail;

const FLOWS: u16 = 3_000;

// Each flow has two packets, of another source port each, and all flows are in one bucket or two.
#[test]
fn some_thousand_flows_are_in_one_bucket_or_two(rt: HostRuntime) -> Result<(), Fail> {
    let mut segments = Vec::new(rt.alloc());
    for port in 1..=FLOWS {
        let mut segment = SEGMENT;
        segment[34..36].copy_from_slice(&port.to_be_bytes());
        segments.push(segment)?;
    }
    let mut frames: Vec<Frame<'_>> = Vec::new(rt.alloc());
    for _ in 0..2 {
        for segment in &segments {
            frames.push((segment.as_slice(), 60))?;
        }
    }
    let capture = capture_of(rt.alloc(), &frames)?;
    for buckets in ["1", "2"] {
        let ran = run(
            &rt,
            rt.alloc(),
            &["report", "--buckets", buckets],
            &capture,
            WHOLE,
        )?;
        assert_eq!(rt; ran.status, 0);
        let lines = ran.out.iter().filter(|byte| **byte == b'\n').count();
        assert_eq!(rt; lines, usize::from(FLOWS) + 1);
        assert!(rt;
            ran.out
                .ends_with(b"total flows 3000 packets 6000 bytes 360000\n")
        );
    }
    Ok(())
}
