// Runs in threads at the ends of the options, and at a gate.
use crate::tests::captures::{SEGMENT, capture_of};
use crate::tests::meeting::Meeting;
use crate::tests::schedules::{of_one_flow, one_thread_report};
use crate::tests::{WHOLE, run, run_at};
use flow_work::Count;
use std::alloc::Global;
use std::sync::Wait;
use std::test::Fail;
use std::thread::Threads;

// Whether runs with these words print this text of a capture, and tell a trace.
fn agree<R: Threads + Wait + Sync>(
    rt: &R,
    alloc: Global,
    words: &[&str],
    capture: &[u8],
    text: &[u8],
) -> Result<bool, Fail> {
    for _run in 0..3u32 {
        let ran = run(rt, alloc, words, capture, WHOLE)?;
        if ran.status != 0 || !ran.is_told || ran.out.as_slice() != text {
            return Ok(false);
        }
    }
    Ok(true)
}

#[test]
fn threads_fold_in_the_order_of_the_capture(rt: HostRuntime) -> Result<(), Fail> {
    let capture = capture_of(
        rt.alloc(),
        &[(&SEGMENT, 60), (&SEGMENT, 70), (&SEGMENT, 80)],
    )?;
    let words = [
        "report",
        "--work",
        "order",
        "--cores",
        "2",
        "--buckets",
        "1",
        "--moves",
        "1:0:1,2:0:0",
    ];
    // (60 * 31 + 70) * 31 + 80
    let text = b"tcp 66.9.149.187:2794 > 161.142.100.80:1766 order 59910\n\
        total flows 1 packets 3 bytes 210\n";
    assert!(rt; agree(&rt, rt.alloc(), &words, &capture, text)?);
    Ok(())
}

#[test]
fn threads_with_two_cells_report_as_one_thread(rt: HostRuntime) -> Result<(), Fail> {
    let made = run(&rt, rt.alloc(), &["make", "500", "1"], &[], WHOLE)?;
    assert!(rt; !made.is_told);
    let text = one_thread_report(rt.alloc(), &Count, &made.out)?;
    let words = ["report", "--cores", "8", "--pool", "2"];
    assert!(rt; agree(&rt, rt.alloc(), &words, &made.out, &text)?);
    Ok(())
}

#[test]
fn one_frame_is_reported_by_64_threads(rt: HostRuntime) -> Result<(), Fail> {
    let capture = of_one_flow(rt.alloc(), 1)?;
    let text = b"tcp 66.9.149.187:2794 > 161.142.100.80:1766 packets 1 bytes 60\n\
        total flows 1 packets 1 bytes 60\n";
    assert!(rt;
        agree(
            &rt,
            rt.alloc(),
            &["report", "--cores", "64"],
            &capture,
            text
        )?
    );
    Ok(())
}

#[test]
fn two_threads_meet_at_a_gate(rt: HostRuntime) -> Result<(), Fail> {
    let made = run(&rt, rt.alloc(), &["make", "100", "7"], &[], WHOLE)?;
    let words = ["report", "--cores", "2", "--buckets", "8"];
    let mut met = false;
    for _run in 0..10u32 {
        if !met {
            let gate = Meeting::new();
            let ran = run_at(&rt, rt.alloc(), &words, &made.out, &gate)?;
            assert_eq!(rt; ran.status, 0);
            met = gate.met();
        }
    }
    assert!(rt; met);
    Ok(())
}
